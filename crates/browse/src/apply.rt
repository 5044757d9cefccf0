// `apply IMAGE SCRIPT`: the image after the commands of the script, or the first chunk of the image, line of the script or
// command that is refused.
ghost use Rattle.std.specs.Prelude.{◌≡◌, [], IfOk};
ghost use Rattle.command_words.specs.Forms.{Apply};
ghost use Rattle.image_forms.specs.Loads.{world};
ghost use Rattle.image_forms.specs.Answers.{AnswersForm, Applies, status_applied};
ghost use Rattle.image_forms.specs.declared.status.Status.{Status};

use applied_scripts::apply_script;
use apply_model::Status as Verdict;
use file_faults::ImageFault;
use file_reading::read_image;
use image_forms::{IMAGE_LIMIT, Status, load, push_image_refusal};
use rb_base::{Memory, Shelf, Text};
use std::alloc::Global;
use std::mem::forget;

/// The most bytes of a script.
pub(crate) const SCRIPT_LIMIT: u32 = 1048576;

/// How a call ends whose files are answered so.
pub(crate) fn status_of(verdict: Verdict) -> Status
    ensures { result ≡ status_applied verdict }
{
    match verdict {
        Verdict::Done => Status::Done,
        Verdict::Condition => Status::Condition,
        Verdict::ImageText => Status::ImageText,
        Verdict::ScriptText => Status::ScriptText,
    }
}

/// The answer to the two texts.
fn apply_texts(alloc: Global, text: &[u8], script: &[u8], out: &mut Text) -> Result<Status, Memory>
    requires { out.old ≡ [] }
    ensures { IfOk result (λ status. Applies text.now script.now status out.new) }
{
    match read_image(alloc, text) {
        Ok(image) => {
            let mut image = image;
            let verdict = apply_script(alloc, &mut image, script, out)?;
            forget(image);
            Ok(status_of(verdict))
        }
        Err(ImageFault::Refused { chunk, at, cause }) => {
            push_image_refusal(alloc, chunk, at, cause, out)?;
            Ok(Status::ImageText)
        }
        Err(ImageFault::Memory) => Err(Memory),
    }
}

/// The answer to the two files.
pub fn apply<F: Shelf>(
    alloc: Global,
    shelf: &mut F,
    image: &str,
    script: &str,
    out: &mut Text,
) -> Result<Status, Memory>
    requires { out.old ≡ [] }
    ensures answered { IfOk result (λ status. AnswersForm (world F.told F.faults F.taken shelf.old shelf.new) (Apply image.now script.now) status out.new) }
    ensures same { F.told shelf.new ≡ F.told shelf.old }
{
    let image = match load(alloc, shelf, image, IMAGE_LIMIT, out)? {
        Ok(bytes) => bytes,
        Err(status) => return Ok(status),
    };
    let script = match load(alloc, shelf, script, SCRIPT_LIMIT, out)? {
        Ok(bytes) => bytes,
        Err(status) => return Ok(status),
    };
    apply_texts(alloc, image.as_slice(), script.as_slice(), out)
}
