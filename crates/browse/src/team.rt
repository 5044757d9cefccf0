// `team IMAGE LOG`: a line for what each session does, and the image at the end; or the first chunk of the image or line of the
// log that is refused.
ghost use Rattle.std.specs.Prelude.{◌≡◌, [], IfOk};
ghost use Rattle.command_words.specs.Forms.{Team};
ghost use Rattle.image_forms.specs.Loads.{world};
ghost use Rattle.image_forms.specs.Answers.{AnswersForm, PlaysLog};

use crate::apply::{SCRIPT_LIMIT, status_of};
use file_faults::ImageFault;
use file_reading::read_image;
use image_forms::{IMAGE_LIMIT, Status, load, push_image_refusal};
use played_logs::play_log;
use rb_base::{Memory, Shelf, Text};
use std::alloc::Global;

/// The answer to the two texts.
fn play_texts(alloc: Global, text: &[u8], log: &[u8], out: &mut Text) -> Result<Status, Memory>
    requires { out.old ≡ [] }
    ensures { IfOk result (λ status. PlaysLog text.now log.now status out.new) }
{
    match read_image(alloc, text) {
        Ok(image) => {
            let verdict = play_log(alloc, image, log, out)?;
            Ok(status_of(verdict))
        }
        Err(ImageFault::Refused { chunk, at, cause }) => {
            push_image_refusal(alloc, chunk, at, cause, out)?;
            Ok(Status::ImageText)
        }
        Err(ImageFault::Memory) => Err(Memory),
    }
}

/// The answer to the two files.
pub fn team<F: Shelf>(
    alloc: Global,
    shelf: &mut F,
    image: &str,
    log: &str,
    out: &mut Text,
) -> Result<Status, Memory>
    requires { out.old ≡ [] }
    ensures answered { IfOk result (λ status. AnswersForm (world F.told F.faults F.taken shelf.old shelf.new) (Team image.now log.now) status out.new) }
    ensures same { F.told shelf.new ≡ F.told shelf.old }
{
    let image = match load(alloc, shelf, image, IMAGE_LIMIT, out)? {
        Ok(bytes) => bytes,
        Err(status) => return Ok(status),
    };
    let log = match load(alloc, shelf, log, SCRIPT_LIMIT, out)? {
        Ok(bytes) => bytes,
        Err(status) => return Ok(status),
    };
    play_texts(alloc, image.as_slice(), log.as_slice(), out)
}
