// The text of an image.
ghost use Rattle.std.specs.Prelude.{◌≡◌, ◌-◌, ◌++◌, take, drop, flat_map, OnOk, OnErr};
ghost use Rattle.class_table.specs.View.{image_of};
ghost use Rattle.file_model.specs.Written.{file_of};
ghost use Rattle.image_file.specs.Writable.{IsWritable, doit_text_of};

use crate::class_texts::write_classes;
use crate::method_texts::write_methods;
use crate::strings::write_paragraph;
use class_table::Image;
use rb_base::{Memory, Text};
use std::alloc::Global;

/// Appends the do-its from a number up to, and without, another.
fn write_doits(
    alloc: Global,
    image: &Image,
    from: usize,
    to: usize,
    out: &mut Text,
) -> Result<(), Memory>
    ensures { OnOk result (out.new ≡ out.old ++ flat_map doit_text_of (take (to - from) (drop from image.now.doits))) }
{
    let mut number = from;
    while number < to {
        match image.doit_source(number) {
            None => break,
            Some(source) => write_paragraph(alloc, source, out)?,
        }
        number += 1;
    }
    Ok(())
}

/// Appends the text of an image.
fn write_file(alloc: Global, image: &Image, out: &mut Text) -> Result<(), Memory>
    requires { IsWritable image.now }
    ensures { OnOk result (out.new ≡ out.old ++ file_of (image_of image.now)) }
{
    write_doits(alloc, image, 0, image.heads(), out)?;
    write_classes(alloc, image, out)?;
    write_methods(alloc, image, out)?;
    write_doits(alloc, image, image.heads(), image.doits(), out)?;
    Ok(())
}

/// Appends a text, which is not copied where nothing stands before it.
pub fn append(out: &mut Text, text: Text) -> Result<(), Memory>
    ensures ok { OnOk result (out.new ≡ out.old ++ text) }
    ensures err { OnErr result (out.new ≡ out.old) }
{
    if out.as_slice().is_empty() {
        *out = text;
        return Ok(());
    }
    out.push_slice(text.as_slice())
}

/// Appends the text of an image as a file-out: the do-its at its head, the classes of the user, their methods in runs of
/// neighbours of one class, side and protocol, and the other do-its. Sources stay as they are. On want of memory `out` is
/// as before.
pub fn write_image(alloc: Global, image: &Image, out: &mut Text) -> Result<(), Memory>
    requires { IsWritable image.now }
    ensures ok { OnOk result (out.new ≡ out.old ++ file_of (image_of image.now)) }
    ensures err { OnErr result (out.new ≡ out.old) }
{
    let mut file = Text::new(alloc);
    write_file(alloc, image, &mut file)?;
    append(out, file)
}
