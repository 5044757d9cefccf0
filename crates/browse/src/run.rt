// `run IMAGE EXPRESSION`: what a run of the image with the expression as its last do-it tells, and how it comes out; or the
// first chunk or the expression that is refused.
ghost use Rattle.std.specs.Prelude.{◌≡◌, [], IfOk, OnOk};
ghost use Rattle.run_model.specs.Runs as runs;
ghost use Rattle.class_table.specs.View.{image_of};
ghost use Rattle.class_table.specs.Valid.{IsOrderly};
ghost use Rattle.command_words.specs.Forms.{Run};
ghost use Rattle.image_forms.specs.Loads.{world};
ghost use Rattle.image_forms.specs.Answers.{AnswersForm, RunsIn, Runs, status_of};

use class_table::Image;
use file_faults::ImageFault;
use file_reading::read_image;
use image_doits::add_doit;
use image_forms::{IMAGE_LIMIT, Status, load, push_expression_refusal, push_image_refusal};
use rb_base::{Memory, Shelf, Text};
use run_texts::write_run;
use st_meaning::{Outcome, OutcomeKind};
use std::alloc::Global;

/// How a call ends whose run came out so.
fn status_of(outcome: &Outcome) -> Status
    ensures { result ≡ status_of outcome.now }
{
    match &outcome.kind {
        OutcomeKind::Done(_) => Status::Done,
        OutcomeKind::Failed(_) => Status::RunError,
        OutcomeKind::Spent => Status::Spent,
    }
}

/// Runs the image, of which classes and methods are found by tables then, and appends what is printed of the run.
fn print_run(
    alloc: Global,
    image: &mut Image,
    budget: u32,
    out: &mut Text,
) -> Result<Status, Memory>
    requires orderly { IsOrderly image.old }
    requires empty { out.old ≡ [] }
    ensures status { IfOk result (λ status. status ≡ status_of (runs.run (image_of image.old) budget).outcome) }
    ensures text { OnOk result (out.new ≡ runs.printed_run (image_of image.old) budget) }
{
    image.reindex()?;
    let report = st_interp::run(alloc, image, budget)?;
    write_run(
        alloc,
        report.events.as_slice(),
        &report.outcome,
        budget,
        out,
    )?;
    Ok(status_of(&report.outcome))
}

/// The answer to an expression, which is put behind the do-its of the image.
fn run_expression(
    alloc: Global,
    image: &mut Image,
    expression: &[u8],
    budget: u32,
    out: &mut Text,
) -> Result<Status, Memory>
    requires orderly { IsOrderly image.old }
    requires empty { out.old ≡ [] }
    ensures { IfOk result (λ status. RunsIn (image_of image.old) expression.now budget status out.new) }
{
    match add_doit(alloc, expression, image) {
        Ok(()) => print_run(alloc, image, budget, out),
        Err(fault) => {
            push_expression_refusal(alloc, fault, out)?;
            Ok(Status::ScriptText)
        }
    }
}

/// The answer to the text.
fn run_text(
    alloc: Global,
    text: &[u8],
    expression: &[u8],
    budget: u32,
    out: &mut Text,
) -> Result<Status, Memory>
    requires { out.old ≡ [] }
    ensures { IfOk result (λ status. Runs text.now expression.now budget status out.new) }
{
    match read_image(alloc, text) {
        Ok(image) => {
            let mut image = image;
            run_expression(alloc, &mut image, expression, budget, out)
        }
        Err(ImageFault::Refused { chunk, at, cause }) => {
            push_image_refusal(alloc, chunk, at, cause, out)?;
            Ok(Status::ImageText)
        }
        Err(ImageFault::Memory) => Err(Memory),
    }
}

/// The answer to the file.
pub fn run<F: Shelf>(
    alloc: Global,
    shelf: &mut F,
    image: &str,
    expression: &str,
    budget: u32,
    out: &mut Text,
) -> Result<Status, Memory>
    requires { out.old ≡ [] }
    ensures answered { IfOk result (λ status. AnswersForm (world F.told F.faults F.taken shelf.old shelf.new) (Run image.now expression.now budget) status out.new) }
    ensures same { F.told shelf.new ≡ F.told shelf.old }
{
    match load(alloc, shelf, image, IMAGE_LIMIT, out)? {
        Ok(bytes) => run_text(alloc, bytes.as_slice(), expression.as_bytes(), budget, out),
        Err(status) => Ok(status),
    }
}
