// `import FILE`: the file-out of another Smalltalk as one of this one, or its first chunk that has no form here.
ghost use Rattle.std.specs.Prelude.{◌≡◌, [], IfOk};
ghost use Rattle.command_words.specs.Forms.{Import};
ghost use Rattle.image_forms.specs.Loads.{world};
ghost use Rattle.image_forms.specs.Answers.{AnswersForm, Imports};

use crate::image_lines::push_import_refusal;
use crate::loading::{IMAGE_LIMIT, load};
use crate::status::Status;
use file_faults::ImageFault;
use rb_base::{Memory, Shelf, Text};
use std::alloc::Global;

/// The answer to the text.
fn import_text(alloc: Global, text: &[u8], out: &mut Text) -> Result<Status, Memory>
    requires { out.old ≡ [] }
    ensures { IfOk result (λ status. Imports text.now status out.new) }
{
    match import_chunks::import(alloc, text) {
        Ok(imported) => {
            *out = imported;
            Ok(Status::Done)
        }
        Err(ImageFault::Refused { chunk, cause, .. }) => {
            push_import_refusal(alloc, chunk, cause, out)?;
            Ok(Status::ImageText)
        }
        Err(ImageFault::Memory) => Err(Memory),
    }
}

/// The answer to the file.
pub fn import<F: Shelf>(
    alloc: Global,
    shelf: &mut F,
    file: &str,
    out: &mut Text,
) -> Result<Status, Memory>
    requires { out.old ≡ [] }
    ensures answered { IfOk result (λ status. AnswersForm (world F.told F.faults F.taken shelf.old shelf.new) (Import file.now) status out.new) }
    ensures same { F.told shelf.new ≡ F.told shelf.old }
{
    match load(alloc, shelf, file, IMAGE_LIMIT, out)? {
        Ok(bytes) => import_text(alloc, bytes.as_slice(), out),
        Err(status) => Ok(status),
    }
}
