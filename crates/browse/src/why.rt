// `why IMAGE SCRIPT`: what stands in the way of the first command of the script that is refused; nothing if all are accepted; or
// the first chunk of the image or line of the script that is wrong.
ghost use Rattle.std.specs.Prelude.{◌≡◌, [], IfOk};
ghost use Rattle.command_words.specs.Forms.{Why};
ghost use Rattle.image_forms.specs.Loads.{world};
ghost use Rattle.image_forms.specs.Answers.{AnswersForm, Explains};

use crate::apply::{SCRIPT_LIMIT, status_of};
use explained_scripts::explain_script;
use file_faults::ImageFault;
use file_reading::read_image;
use image_forms::{IMAGE_LIMIT, Status, load, push_image_refusal};
use rb_base::{Memory, Shelf, Text};
use std::alloc::Global;
use std::mem::forget;

/// The answer to the two texts.
fn why_texts(alloc: Global, text: &[u8], script: &[u8], out: &mut Text) -> Result<Status, Memory>
    requires { out.old ≡ [] }
    ensures { IfOk result (λ status. Explains text.now script.now status out.new) }
{
    match read_image(alloc, text) {
        Ok(image) => {
            let mut image = image;
            let verdict = explain_script(alloc, &mut image, script, out)?;
            // The program is to end soon, so the image is not taken apart piece by piece.
            forget(image);
            Ok(status_of(verdict))
        }
        Err(ImageFault::Refused { chunk, at, cause }) => {
            push_image_refusal(alloc, chunk, at, cause, out)?;
            Ok(Status::ImageText)
        }
        Err(ImageFault::Memory) => Err(Memory),
    }
}

/// The answer to the two files.
pub fn why<F: Shelf>(
    alloc: Global,
    shelf: &mut F,
    image: &str,
    script: &str,
    out: &mut Text,
) -> Result<Status, Memory>
    requires { out.old ≡ [] }
    ensures answered { IfOk result (λ status. AnswersForm (world F.told F.faults F.taken shelf.old shelf.new) (Why image.now script.now) status out.new) }
    ensures same { F.told shelf.new ≡ F.told shelf.old }
{
    let image = match load(alloc, shelf, image, IMAGE_LIMIT, out)? {
        Ok(bytes) => bytes,
        Err(status) => return Ok(status),
    };
    let script = match load(alloc, shelf, script, SCRIPT_LIMIT, out)? {
        Ok(bytes) => bytes,
        Err(status) => return Ok(status),
    };
    why_texts(alloc, image.as_slice(), script.as_slice(), out)
}
