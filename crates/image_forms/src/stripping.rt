// `strip IMAGE EXPRESSION`: the image without what its do-its and the expression cannot reach, and behind `sets` the lines that
// tell what they reach; or the first chunk or the expression that is refused.
ghost use Rattle.std.specs.Prelude.{◌≡◌, List, ℕ, [], IfOk, OnOk};
ghost use Rattle.rb_base.specs.Names.{text_eq};
ghost use Rattle.image_model.specs.Image.{ImageOf};
ghost use Rattle.strip_model.specs.Reach.{ReachOf};
ghost use Rattle.strip_model.specs.Stripped.{strip};
ghost use Rattle.class_table.specs.View.{image_of};
ghost use Rattle.class_table.specs.Valid.{IsOrderly};
ghost use Rattle.image_strip.specs.Once.{HasMethodsOnce};
ghost use Rattle.command_words.specs.Forms.{Strip};
ghost use Rattle.image_forms.specs.Loads.{world};
ghost use Rattle.image_forms.specs.Answers.{AnswersForm, StripsIn, Strips, stripped_text};

use crate::image_lines::{push_expression_refusal, push_image_refusal};
use crate::loading::{IMAGE_LIMIT, load};
use crate::status::Status;
use class_table::Image;
use file_faults::ImageFault;
use file_reading::read_image;
use image_file::{write_image, writes_orderly_images};
use rb_base::{Memory, Shelf, Text};
use std::alloc::Global;
use strip_texts::{methods_stand_once, strip_for, write_sets};

/// Prints what is left of an image: what was reached, or the file.
fn print_left(alloc: Global, image: &Image, sets: bool, out: &mut Text) -> Result<(), Memory>
    requires orderly { IsOrderly image.now }
    requires empty { out.old ≡ [] }
    ensures { OnOk result ((r : ReachOf (List ℕ)) (i : ImageOf (List ℕ)) → image_of image.now ≡ strip text_eq r i → out.new ≡ stripped_text sets r i) }
{
    writes_orderly_images();
    if sets {
        write_sets(alloc, image, out)
    } else {
        write_image(alloc, image, out)
    }
}

/// The answer to an expression.
fn strip_expression(
    alloc: Global,
    image: &mut Image,
    expression: &[u8],
    sets: bool,
    out: &mut Text,
) -> Result<Status, Memory>
    requires orderly { IsOrderly image.old }
    requires once { HasMethodsOnce image.old }
    requires empty { out.old ≡ [] }
    ensures { IfOk result (λ status. StripsIn (image_of image.old) expression.now sets status out.new) }
{
    match strip_for(alloc, expression, image) {
        Ok(()) => {
            print_left(alloc, image, sets, out)?;
            Ok(Status::Done)
        }
        Err(fault) => {
            push_expression_refusal(alloc, fault, out)?;
            Ok(Status::ScriptText)
        }
    }
}

/// The answer to the text.
fn strip_text(
    alloc: Global,
    text: &[u8],
    expression: &[u8],
    sets: bool,
    out: &mut Text,
) -> Result<Status, Memory>
    requires { out.old ≡ [] }
    ensures { IfOk result (λ status. Strips text.now expression.now sets status out.new) }
{
    methods_stand_once();
    match read_image(alloc, text) {
        Ok(image) => {
            let mut image = image;
            strip_expression(alloc, &mut image, expression, sets, out)
        }
        Err(ImageFault::Refused { chunk, at, cause }) => {
            push_image_refusal(alloc, chunk, at, cause, out)?;
            Ok(Status::ImageText)
        }
        Err(ImageFault::Memory) => Err(Memory),
    }
}

/// The answer to the file.
pub fn strip<F: Shelf>(
    alloc: Global,
    shelf: &mut F,
    image: &str,
    expression: &str,
    sets: bool,
    out: &mut Text,
) -> Result<Status, Memory>
    requires { out.old ≡ [] }
    ensures answered { IfOk result (λ status. AnswersForm (world F.told F.faults F.taken shelf.old shelf.new) (Strip image.now expression.now sets) status out.new) }
    ensures same { F.told shelf.new ≡ F.told shelf.old }
{
    match load(alloc, shelf, image, IMAGE_LIMIT, out)? {
        Ok(bytes) => strip_text(alloc, bytes.as_slice(), expression.as_bytes(), sets, out),
        Err(status) => Ok(status),
    }
}
