// What is left of an image, line by line.
ghost use Rattle.std.specs.Prelude.{◌≡◌, ◌++◌, ℕ, List, flat_map, OnOk, OnErr};
ghost use Rattle.rb_base.specs.Names.{text_eq};
ghost use Rattle.image_model.specs.Image.{ImageOf};
ghost use Rattle.strip_model.specs.Reach.{ReachOf};
ghost use Rattle.strip_model.specs.Stripped.{certificate, strip};
ghost use Rattle.class_table.specs.Valid.{IsLive, IsOrderly};
ghost use Rattle.class_table.specs.View.{image_of};
ghost use Rattle.strip_texts.specs.Lines.{class_line_at, method_line_at};

use class_table::{ClassId, Image, MethodSlot};
use image_queries::{method_title, text_of};
use rb_base::{Memory, Text};
use std::alloc::Global;

/// Appends the line of the class in a slot, if it is one of a user.
fn push_class(image: &Image, id: ClassId, out: &mut Text) -> Result<(), Memory>
    ensures { OnOk result (out.new ≡ out.old ++ class_line_at image.now id) }
{
    match image.class_rec(id) {
        None => Ok(()),
        Some(rec) => {
            if rec.kernel {
                return Ok(());
            }
            out.push_slice(b"class ")?;
            out.push_slice(text_of(image, rec.name))?;
            out.push_slice(b"\n")
        }
    }
}

/// Appends the line of the method in a live slot, if it is one of a user.
fn push_method(alloc: Global, image: &Image, slot: MethodSlot, out: &mut Text) -> Result<(), Memory>
    requires orderly { IsOrderly image.now }
    requires live { IsLive image.now.method_order slot }
    ensures { OnOk result (out.new ≡ out.old ++ method_line_at image.now slot) }
{
    match image.method_info(slot) {
        None => Ok(()),
        Some(info) => {
            if info.kernel {
                return Ok(());
            }
            let title = method_title(alloc, image, &info)?;
            out.push_slice(b"method ")?;
            out.push_slice(title.as_slice())?;
            out.push_slice(b"\n")
        }
    }
}

/// Appends the lines of the classes of users.
fn push_classes(image: &Image, out: &mut Text) -> Result<(), Memory>
    ensures { OnOk result (out.new ≡ out.old ++ flat_map (class_line_at image.now) image.now.class_order) }
{
    for id in image.classes() {
        push_class(image, *id, out)?;
    }
    Ok(())
}

/// Appends the lines of the methods of users.
fn push_methods(alloc: Global, image: &Image, out: &mut Text) -> Result<(), Memory>
    requires { IsOrderly image.now }
    ensures { OnOk result (out.new ≡ out.old ++ flat_map (method_line_at image.now) image.now.method_order) }
{
    for slot in image.methods() {
        push_method(alloc, image, *slot, out)?;
    }
    Ok(())
}

/// Appends a line for each class and then for each method of a user, in the order of the image. Of an image from which all was
/// taken out that is not reached these are the lines that tell what is. If memory is wanting, nothing is appended.
pub fn write_sets(alloc: Global, image: &Image, out: &mut Text) -> Result<(), Memory>
    requires { IsOrderly image.now }
    ensures written { OnOk result ((r : ReachOf (List ℕ)) (i : ImageOf (List ℕ)) → image_of image.now ≡ strip text_eq r i → out.new ≡ out.old ++ certificate r i) }
    ensures kept { OnErr result (out.new ≡ out.old) }
{
    let mut lines = Text::new(alloc);
    push_classes(image, &mut lines)?;
    push_methods(alloc, image, &mut lines)?;
    out.push_slice(lines.as_slice())
}
