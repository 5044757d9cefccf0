// The replacements of do-its.
ghost use Rattle.std.specs.Prelude.{◌≡◌, ◌++◌, codes, IfOk, OnOk};
ghost use Rattle.std.specs.Fmt.{decimal};
ghost use Rattle.text_model.specs.Literals.{quoted_text};
ghost use Rattle.class_table.specs.Info.{source_at};
ghost use Rattle.class_table.specs.View.{image_of};
ghost use Rattle.change_model.specs.Edits.{replacements};
ghost use Rattle.change_file.specs.Texts.{edit_texts, has_text};

use crate::pieces::{push_number, same_text};
use class_table::Image;
use image_file::{write_paragraph, write_string};
use rb_base::{Memory, Text};
use std::alloc::Global;

/// The message that replaces the do-it of a number, from 1.
fn replacement_source(alloc: Global, number: usize, source: &[u8]) -> Result<Text, Memory>
    ensures { IfOk result (λ message. message ≡ codes "Smalltalk replaceDoIt: " ++ decimal number ++ codes " with: " ++ quoted_text source.now) }
{
    let mut message = Text::new(alloc);
    message.push_slice(b"Smalltalk replaceDoIt: ")?;
    push_number(alloc, number, &mut message)?;
    message.push_slice(b" with: ")?;
    write_string(source, &mut message)?;
    Ok(message)
}

/// Whether the do-it of a number, from 0, has this source.
pub(crate) fn has_source(image: &Image, number: usize, source: &[u8]) -> bool
    ensures { result ≡ has_text (source_at image.now.doits number) source.now }
{
    match image.doit_source(number) {
        None => false,
        Some(former) => same_text(former, source),
    }
}

/// Appends the replacements of the do-its of which the old image has others.
pub(crate) fn write_replacements(
    alloc: Global,
    old: &Image,
    new: &Image,
    out: &mut Text,
) -> Result<(), Memory>
    ensures { OnOk result (out.new ≡ out.old ++ edit_texts (replacements (image_of old.now) (image_of new.now))) }
{
    for number in 0..new.doits() {
        if let Some(source) = new.doit_source(number) {
            if !has_source(old, number, source) {
                let message = replacement_source(alloc, number + 1, source)?;
                write_paragraph(alloc, message.as_slice(), out)?;
            }
        }
    }
    Ok(())
}
