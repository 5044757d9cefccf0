// `find IMAGE KIND NAME`: the lines of the methods and nodes that are asked for, or the first chunk that is refused.
ghost use Rattle.std.specs.Prelude.{◌≡◌, [], IfOk, OnOk};
ghost use Rattle.class_table.specs.View.{image_of};
ghost use Rattle.class_table.specs.Valid.{IsOrderly};
ghost use Rattle.query_model.specs.Lines.{IsAnswer};
ghost use Rattle.image_queries.specs.Spelled.{AreSpelled};
ghost use Rattle.command_words.specs.Forms.{Find};
ghost use Rattle.command_words.specs.Questions.{asks};
ghost use Rattle.image_forms.specs.Loads.{world};
ghost use Rattle.image_forms.specs.Answers.{AnswersForm, Finds};

use crate::image_lines::push_image_refusal;
use crate::loading::{IMAGE_LIMIT, load};
use crate::query::query_of;
use crate::status::Status;
use class_table::Image;
use command_words::Question;
use file_faults::ImageFault;
use file_reading::read_image;
use image_queries::report;
use rb_base::{Memory, Shelf, Text};
use std::alloc::Global;

/// Appends the lines that answer the question. Classes and methods are found by tables.
fn report_in(
    alloc: Global,
    image: &mut Image,
    question: Question<'_>,
    out: &mut Text,
) -> Result<(), Memory>
    requires orderly { IsOrderly image.old }
    requires spelled { AreSpelled (image_of image.old) }
    requires empty { out.old ≡ [] }
    ensures { OnOk result (IsAnswer (image_of image.old) (asks question.entry) out.new) }
{
    let query = query_of(image, question)?;
    image.reindex()?;
    report(alloc, image, &query, out)
}

/// The answer to the text.
fn find_text(
    alloc: Global,
    text: &[u8],
    question: Question<'_>,
    out: &mut Text,
) -> Result<Status, Memory>
    requires { out.old ≡ [] }
    ensures { IfOk result (λ status. Finds text.now (asks question.entry) status out.new) }
{
    match read_image(alloc, text) {
        Ok(image) => {
            let mut image = image;
            report_in(alloc, &mut image, question, out)?;
            Ok(Status::Done)
        }
        Err(ImageFault::Refused { chunk, at, cause }) => {
            push_image_refusal(alloc, chunk, at, cause, out)?;
            Ok(Status::ImageText)
        }
        Err(ImageFault::Memory) => Err(Memory),
    }
}

/// The answer to the file.
pub fn find<F: Shelf>(
    alloc: Global,
    shelf: &mut F,
    image: &str,
    question: Question<'_>,
    out: &mut Text,
) -> Result<Status, Memory>
    requires { out.old ≡ [] }
    ensures answered { IfOk result (λ status. AnswersForm (world F.told F.faults F.taken shelf.old shelf.new) (Find image.now (asks question.entry)) status out.new) }
    ensures same { F.told shelf.new ≡ F.told shelf.old }
{
    match load(alloc, shelf, image, IMAGE_LIMIT, out)? {
        Ok(bytes) => find_text(alloc, bytes.as_slice(), question, out),
        Err(status) => Ok(status),
    }
}
