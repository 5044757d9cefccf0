// The text of a change file.
ghost use Rattle.std.specs.Prelude.{◌≡◌, ◌++◌, IfOk, OnOk, OnErr};
ghost use Rattle.class_table.specs.View.{image_of};
ghost use Rattle.class_table.specs.Valid.{IsOrderly};
ghost use Rattle.change_model.specs.Edits.{edits};
ghost use Rattle.change_model.specs.Text.{change_text};
ghost use Rattle.change_file.specs.Shown.{IsToldApart};
ghost use Rattle.change_file.specs.Texts.{edit_texts};

use crate::class_edits::write_class_edits;
use crate::doit_edits::write_replacements;
use crate::method_edits::write_method_edits;
use class_table::Image;
use image_file::append;
use rb_base::{Memory, Text};
use std::alloc::Global;

/// What stands before the edits: the end of a run that may be open, and the settling of places that may be stated.
const HEAD: &[u8] = b"\n!\n\nSmalltalk settlePlaces!\n\n";

/// The edits that make the new image of the old one.
fn edits(alloc: Global, old: &Image, new: &Image) -> Result<Text, Memory>
    requires old { IsOrderly old.now }
    requires new { IsOrderly new.now }
    requires old_apart { IsToldApart (image_of old.now) }
    requires new_apart { IsToldApart (image_of new.now) }
    ensures { IfOk result (λ text. text ≡ edit_texts (edits (image_of old.now) (image_of new.now))) }
{
    let mut text = Text::new(alloc);
    write_class_edits(alloc, old, new, &mut text)?;
    write_method_edits(alloc, old, new, &mut text)?;
    write_replacements(alloc, old, new, &mut text)?;
    Ok(text)
}

/// Appends what is filed in after the text of the old image to have the new one; nothing where they do not differ. On want of
/// memory `out` is as before.
pub fn write_changes(alloc: Global, old: &Image, new: &Image, out: &mut Text) -> Result<(), Memory>
    requires old { IsOrderly old.now }
    requires new { IsOrderly new.now }
    requires old_apart { IsToldApart (image_of old.now) }
    requires new_apart { IsToldApart (image_of new.now) }
    ensures ok { OnOk result (out.new ≡ out.old ++ change_text (image_of old.now) (image_of new.now)) }
    ensures err { OnErr result (out.new ≡ out.old) }
{
    let edits = edits(alloc, old, new)?;
    if edits.as_slice().is_empty() {
        return Ok(());
    }
    let mut text = Text::from_slice(alloc, HEAD)?;
    text.push_slice(edits.as_slice())?;
    append(out, text)
}
