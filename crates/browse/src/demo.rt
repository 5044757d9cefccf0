// `demo NUMBER`: an image of so many classes and methods that is made, run, changed by a script and run again.
ghost use Rattle.std.specs.Prelude.{◌≡◌, ◌++◌, ℕ, List, [], codes, IfOk, OnOk};
ghost use Rattle.image_model.specs.Image.{ImageOf};
ghost use Rattle.class_table.specs.View.{image_of};
ghost use Rattle.class_table.specs.Valid.{IsOrderly};
ghost use Rattle.live_slots.specs.Live.{AllLive};
ghost use Rattle.image_maker.specs.Generated.{image_text};
ghost use Rattle.std.specs.Fmt.{decimal};
ghost use Rattle.image_forms.specs.Loads.{line};
ghost use Rattle.image_forms.specs.Answers.{OfImage, ChangesIn, DemosIn, last_line, summary};

use crate::apply::status_of;
use applied_scripts::{Changed, change_image};
use class_table::Image;
use file_faults::ImageFault;
use file_reading::read_image;
use image_doits::add_doit;
use image_forms::{Status, push_expression_refusal, push_image_refusal, push_number};
use image_maker::{make_expression, make_image, make_script};
use rb_base::{Memory, Text};
use run_texts::write_run;
use std::alloc::Global;
use std::mem::forget;

/// How many ticks each run has.
const TICKS: u32 = 1000000;

/// The last line that is printed of the run of an image, of which classes and methods are found by tables then.
fn last_line(alloc: Global, image: &mut Image) -> Result<Text, Memory>
    requires { IsOrderly image.old }
    ensures line { IfOk result (λ text. text ≡ last_line (image_of image.old)) }
    ensures same { image.new ≡ image.old }
{
    image.reindex()?;
    let report = st_interp::run(alloc, image, TICKS)?;
    let mut text = Text::new(alloc);
    write_run(alloc, &[], &report.outcome, TICKS, &mut text)?;
    Ok(text)
}

/// Appends a line of a word and a number.
fn push_count(alloc: Global, word: &str, count: usize, out: &mut Text) -> Result<(), Memory>
    ensures { OnOk result (out.new ≡ out.old ++ line (word.now ++ decimal count)) }
{
    out.push_slice(word.as_bytes())?;
    push_number(alloc, count, out)?;
    out.push_slice(b"\n")
}

/// Appends the lines of a demonstration, of which the last two end with the last lines of the runs.
fn push_summary(
    alloc: Global,
    classes: usize,
    commands: usize,
    before: &[u8],
    after: &[u8],
    out: &mut Text,
) -> Result<(), Memory>
    requires { out.old ≡ [] }
    ensures { OnOk result ((i j : ImageOf (List ℕ)) → before.now ≡ last_line i → after.now ≡ last_line j → out.new ≡ summary classes commands i j) }
{
    push_count(alloc, "classes ", classes, out)?;
    push_count(alloc, "methods ", classes, out)?;
    push_count(alloc, "commands ", commands, out)?;
    out.push_slice(b"before ")?;
    out.push_slice(before)?;
    out.push_slice(b"after ")?;
    out.push_slice(after)
}

/// Changes the image by the script, runs it again and appends the lines.
fn demo_change(
    alloc: Global,
    classes: u32,
    image: &mut Image,
    before: &[u8],
    out: &mut Text,
) -> Result<Status, Memory>
    requires orderly { IsOrderly image.old }
    requires live { AllLive image.old }
    requires before { before.now ≡ last_line (image_of image.old) }
    requires empty { out.old ≡ [] }
    ensures { IfOk result (λ status. ChangesIn classes (image_of image.old) status out.new) }
{
    let mut script = Text::new(alloc);
    make_script(alloc, classes, &mut script)?;
    match change_image(alloc, image, script.as_slice(), out)? {
        Changed::Done { commands } => {
            let after = last_line(alloc, image)?;
            push_summary(
                alloc,
                classes as usize,
                commands,
                before,
                after.as_slice(),
                out,
            )?;
            Ok(Status::Done)
        }
        Changed::Told(verdict) => Ok(status_of(verdict)),
    }
}

/// The answer in the image.
fn demo_image(
    alloc: Global,
    classes: u32,
    image: &mut Image,
    out: &mut Text,
) -> Result<Status, Memory>
    requires orderly { IsOrderly image.old }
    requires live { AllLive image.old }
    requires empty { out.old ≡ [] }
    ensures { IfOk result (λ status. DemosIn classes (image_of image.old) status out.new) }
{
    let mut expression = Text::new(alloc);
    make_expression(alloc, classes, &mut expression)?;
    match add_doit(alloc, expression.as_slice(), image) {
        Ok(()) => {
            let before = last_line(alloc, image)?;
            demo_change(alloc, classes, image, before.as_slice(), out)
        }
        Err(fault) => {
            push_expression_refusal(alloc, fault, out)?;
            Ok(Status::ScriptText)
        }
    }
}

/// The answer to a number of classes.
pub fn demo(alloc: Global, classes: u32, out: &mut Text) -> Result<Status, Memory>
    requires { out.old ≡ [] }
    ensures { IfOk result (λ status. OfImage (image_text classes) status out.new (λ i. DemosIn classes i status out.new)) }
{
    let mut text = Text::new(alloc);
    make_image(alloc, classes, &mut text)?;
    match read_image(alloc, text.as_slice()) {
        Ok(image) => {
            let mut image = image;
            let status = demo_image(alloc, classes, &mut image, out)?;
            // The program ends behind this answer, so the image is not taken apart piece by piece.
            forget(image);
            Ok(status)
        }
        Err(ImageFault::Refused { chunk, at, cause }) => {
            push_image_refusal(alloc, chunk, at, cause, out)?;
            Ok(Status::ImageText)
        }
        Err(ImageFault::Memory) => Err(Memory),
    }
}
