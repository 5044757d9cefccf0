// `changes IMAGE SCRIPT`: what is to be filed in after the image to have it as the commands of the script change it, or the first
// chunk of the image, line of the script or command that is refused.
ghost use Rattle.std.specs.Prelude.{◌≡◌, [], IfOk, IfErr};
ghost use Rattle.st_kernel.specs.KernelText.{prelude_text};
ghost use Rattle.live_slots.specs.Live.{AllLive};
ghost use Rattle.file_faults.specs.Faults.{IsRefused};
ghost use Rattle.file_faults.specs.Read.{IsReadFrom};
ghost use Rattle.command_words.specs.Forms.{Changes};
ghost use Rattle.image_forms.specs.Loads.{world};
ghost use Rattle.image_forms.specs.Answers.{AnswersForm, WritesChanges};

use crate::apply::{SCRIPT_LIMIT, status_of};
use changed_scripts::change_script;
use class_table::Image;
use file_faults::ImageFault;
use file_reading::read_image;
use image_forms::{IMAGE_LIMIT, Status, load, push_image_refusal};
use rb_base::{Memory, Shelf, Text};
use std::alloc::Global;
use std::mem::forget;

/// Reads a text twice: the one image is to be changed, and the other one is what it is compared with.
fn read_twice(alloc: Global, text: &[u8]) -> Result<(Image, Image), ImageFault>
    ensures old { IfOk result (λ images. IsReadFrom prelude_text text.now images.0) }
    ensures image { IfOk result (λ images. IsReadFrom prelude_text text.now images.1) }
    ensures live { IfOk result (λ images. AllLive images.1) }
    ensures err { IfErr result (IsRefused prelude_text text.now) }
{
    let old = read_image(alloc, text)?;
    let image = read_image(alloc, text)?;
    Ok((old, image))
}

/// The answer to the two texts.
fn changes_texts(
    alloc: Global,
    text: &[u8],
    script: &[u8],
    out: &mut Text,
) -> Result<Status, Memory>
    requires { out.old ≡ [] }
    ensures { IfOk result (λ status. WritesChanges text.now script.now status out.new) }
{
    match read_twice(alloc, text) {
        Ok((old, image)) => {
            let mut image = image;
            let verdict = change_script(alloc, &old, &mut image, script, out)?;
            // The program is to end soon, so the images are not taken apart piece by piece.
            forget(old);
            forget(image);
            Ok(status_of(verdict))
        }
        Err(ImageFault::Refused { chunk, at, cause }) => {
            push_image_refusal(alloc, chunk, at, cause, out)?;
            Ok(Status::ImageText)
        }
        Err(ImageFault::Memory) => Err(Memory),
    }
}

/// The answer to the two files.
pub fn changes<F: Shelf>(
    alloc: Global,
    shelf: &mut F,
    image: &str,
    script: &str,
    out: &mut Text,
) -> Result<Status, Memory>
    requires { out.old ≡ [] }
    ensures answered { IfOk result (λ status. AnswersForm (world F.told F.faults F.taken shelf.old shelf.new) (Changes image.now script.now) status out.new) }
    ensures same { F.told shelf.new ≡ F.told shelf.old }
{
    let image = match load(alloc, shelf, image, IMAGE_LIMIT, out)? {
        Ok(bytes) => bytes,
        Err(status) => return Ok(status),
    };
    let script = match load(alloc, shelf, script, SCRIPT_LIMIT, out)? {
        Ok(bytes) => bytes,
        Err(status) => return Ok(status),
    };
    changes_texts(alloc, image.as_slice(), script.as_slice(), out)
}
