// The image of a draft.
ghost use Rattle.std.specs.Prelude.{◌≡◌, ◌<◌, [], length, IfOk, OnOk};
ghost use Rattle.image_model.specs.ImageNames.{ImageNames};
ghost use Rattle.class_table.specs.View.{number_image};
ghost use Rattle.class_table.specs.Valid.{IsOrderly};
ghost use Rattle.live_slots.specs.Live.{AllLive};
ghost use Rattle.image_draft.specs.Drafted.{image_of, IsWhole};

use crate::classes::add_classes;
use crate::doits::add_doits;
use crate::methods::add_methods;
use class_table::Image;
use image_draft::Draft;
use rb_base::{Memory, Names};
use std::alloc::Global;
use std::collections::HashMap;

/// An image of nothing but names.
fn image_with(alloc: Global, names: Names) -> Image
    ensures image { result ≡ record { names = names; classes = []; class_order = []; methods = []; method_order = []; doits = []; heads = 0 } }
    ensures orderly { IsOrderly result }
    ensures live { AllLive result }
{
    // The length is asked for, since it tells that no text stands twice among the names.
    let _ = names.len();
    let mut image = Image::new(alloc);
    *image.names_mut() = names;
    image
}

/// Fills an image of nothing but names with what is in a draft. The error is want of memory.
fn fill(alloc: Global, image: &mut Image, draft: Draft) -> Result<(), Memory>
    requires blank { image.old ≡ record { names = image.old.names; classes = []; class_order = []; methods = []; method_order = []; doits = []; heads = 0 } }
    requires orderly { IsOrderly image.old }
    requires live { AllLive image.old }
    requires known { ImageNames (λ n. n < length image.old.names) (image_of draft) }
    requires whole { IsWhole draft }
    ensures names { OnOk result (image.new.names ≡ image.old.names) }
    ensures image { OnOk result (number_image image.new ≡ image_of draft) }
    ensures orderly { OnOk result (IsOrderly image.new) }
    ensures live { OnOk result (AllLive image.new) }
{
    let parts = draft.into_parts()?;
    let mut table = HashMap::new(alloc);
    add_classes(image, &mut table, parts.classes)?;
    add_methods(image, &table, parts.methods)?;
    add_doits(image, parts.doits)?;
    image.set_heads(parts.heads);
    Ok(())
}

/// The image of a draft, with the names to which its numbers belong. The error is want of memory. It takes time in the number
/// of classes, methods and do-its.
pub fn image_from(alloc: Global, names: Names, draft: Draft) -> Result<Image, Memory>
    requires known { ImageNames (λ n. n < length names) (image_of draft) }
    requires whole { IsWhole draft }
    ensures names { IfOk result (λ image. image.names ≡ names) }
    ensures image { IfOk result (λ image. number_image image ≡ image_of draft) }
    ensures orderly { IfOk result IsOrderly }
    ensures live { IfOk result AllLive }
{
    let mut image = image_with(alloc, names);
    fill(alloc, &mut image, draft)?;
    Ok(image)
}
