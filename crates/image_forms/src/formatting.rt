// `format IMAGE`: the image with the canonical text of each source of the user, or the first chunk that is refused.
ghost use Rattle.std.specs.Prelude.{◌≡◌, [], IfOk};
ghost use Rattle.command_words.specs.Forms.{Format};
ghost use Rattle.image_forms.specs.Loads.{world};
ghost use Rattle.image_forms.specs.Answers.{AnswersForm, Formats};

use crate::image_lines::push_image_refusal;
use crate::loading::{IMAGE_LIMIT, load};
use crate::status::Status;
use canonical_image::format_image;
use file_faults::ImageFault;
use file_reading::read_image;
use image_file::write_image;
use rb_base::{Memory, Shelf, Text};
use std::alloc::Global;
use std::mem::forget;

/// The answer to the text.
fn format_text(alloc: Global, text: &[u8], out: &mut Text) -> Result<Status, Memory>
    requires { out.old ≡ [] }
    ensures { IfOk result (λ status. Formats text.now status out.new) }
{
    match read_image(alloc, text) {
        Ok(image) => {
            let mut image = image;
            format_image(alloc, &mut image)?;
            write_image(alloc, &image, out)?;
            // The program ends behind this answer, so the image is not taken apart piece by piece.
            forget(image);
            Ok(Status::Done)
        }
        Err(ImageFault::Refused { chunk, at, cause }) => {
            push_image_refusal(alloc, chunk, at, cause, out)?;
            Ok(Status::ImageText)
        }
        Err(ImageFault::Memory) => Err(Memory),
    }
}

/// The answer to the file.
pub fn format<F: Shelf>(
    alloc: Global,
    shelf: &mut F,
    image: &str,
    out: &mut Text,
) -> Result<Status, Memory>
    requires { out.old ≡ [] }
    ensures answered { IfOk result (λ status. AnswersForm (world F.told F.faults F.taken shelf.old shelf.new) (Format image.now) status out.new) }
    ensures same { F.told shelf.new ≡ F.told shelf.old }
{
    match load(alloc, shelf, image, IMAGE_LIMIT, out)? {
        Ok(bytes) => format_text(alloc, bytes.as_slice(), out),
        Err(status) => Ok(status),
    }
}
