// The answer to a script in an image.
ghost use Rattle.std.specs.Prelude.{◌≡◌, ◌<◌, ℕ, List, [], IfOk, OnErr};
ghost use Rattle.class_table.specs.View.{image_of};
ghost use Rattle.class_table.specs.Valid.{IsOrderly};
ghost use Rattle.live_slots.specs.Live.{AllLive};
ghost use Rattle.wider_slots.specs.Closed.{IsClosed};
ghost use Rattle.commands.specs.Views.{HasSelf};
ghost use Rattle.script_model.specs.Scripts.{Says};
ghost use Rattle.script_lang.specs.Shown.{lines_in, AreKnown};
ghost use Rattle.apply_model.specs.Applied.{AppliesIn};
ghost use Rattle.applied_scripts.specs.Changed.{IsChanged, IsAfterPart};

use crate::lines::{perform_all, push_stop, script_lines};
use apply_model::Status;
use class_table::Image;
use image_file::{append, write_image};
use rb_base::{Memory, Steps, Text};
use refusal_lines::push_script_line;
use script_lang::ScriptLine;
use session::Session;
use std::alloc::Global;
use std::marker::Brand;
use std::mem::forget;
use std::sync::ledger::{Blank, Ledger};

/// What became of a script in an image.
#[derive(Clone, Copy)]
pub enum Changed {
    /// All its commands are performed.
    Done {
        /// How many they are.
        commands: usize,
    },
    /// A line of it is wrong, or a command is refused; the line that tells it is appended.
    Told(Status),
}

/// Performs what lines ask for in the image, for which the session is opened, or tells the first one that is refused.
fn perform_counted<L: Ledger>(
    session: &mut Session,
    image: &mut Image,
    lines: Vec<ScriptLine>,
    blank: Blank,
    out: &mut Text,
) -> Result<Changed, Memory>
    requires orderly { IsOrderly image.old }
    requires closed { IsClosed image.old }
    requires self_known { HasSelf image.old.names }
    requires known { AreKnown image.old.names lines.items }
    requires empty { out.old ≡ [] }
    requires name { blank.name ≡ L.name }
    requires parts { blank.parts ≡ L.parts }
    requires some { 0 < L.parts }
    ensures changed { IfOk result (λ changed. (script : List ℕ) → Says script (lines_in image.old.names lines.items) → IsChanged (image_of image.old) script (image_of image.new) out.new changed) }
    ensures part { (script : List ℕ) → Says script (lines_in image.old.names lines.items) → IsAfterPart (image_of image.old) script (image_of image.new) }
    ensures orderly { IsOrderly image.new }
{
    let commands = lines.as_slice().len();
    let mut steps = Steps::<L>::new(blank);
    image.reindex()?;
    session.open(image, &mut steps)?;
    match perform_all(session, image, lines, &mut steps) {
        Ok(()) => Ok(Changed::Done { commands }),
        Err(stop) => {
            push_stop(&stop, image.names(), out)?;
            Ok(Changed::Told(Status::Condition))
        }
    }
}

/// Performs the commands of a script, or appends the line that is wrong, or the first command that is refused. On want of memory
/// a part of the line may be appended.
fn change_and_tell(
    alloc: Global,
    image: &mut Image,
    script: &[u8],
    out: &mut Text,
) -> Result<Changed, Memory>
    requires orderly { IsOrderly image.old }
    requires live { AllLive image.old }
    requires empty { out.old ≡ [] }
    ensures changed { IfOk result (λ changed. IsChanged (image_of image.old) script.now (image_of image.new) out.new changed) }
    ensures part { IsAfterPart (image_of image.old) script.now (image_of image.new) }
    ensures orderly { IsOrderly image.new }
{
    match script_lines(alloc, script, image) {
        Ok(lines) => {
            let mut session = Session::new(alloc);
            let changed = perform_counted::<Brand>(&mut session, image, lines, Blank::new(1), out);
            // The program ends soon, so the session is not taken apart piece by piece.
            forget(session);
            changed
        }
        Err(fault) => {
            push_script_line(fault, out)?;
            Ok(Changed::Told(Status::ScriptText))
        }
    }
}

/// Performs the commands of a script in an image that was read, each in the image after those before it; or appends the line
/// that is wrong, or the first command that is refused.
///
/// The image is then the one after the commands that were performed. What is kept of it is not taken apart: the program is to
/// end soon.
///
/// # Errors
///
/// `Memory` where there is no memory for the commands or for the line; `out` is then as it was, and the image is the one after the
/// commands that were performed.
pub fn change_image(
    alloc: Global,
    image: &mut Image,
    script: &[u8],
    out: &mut Text,
) -> Result<Changed, Memory>
    requires orderly { IsOrderly image.old }
    requires live { AllLive image.old }
    requires empty { out.old ≡ [] }
    ensures changed { IfOk result (λ changed. IsChanged (image_of image.old) script.now (image_of image.new) out.new changed) }
    ensures part { IsAfterPart (image_of image.old) script.now (image_of image.new) }
    ensures orderly { IsOrderly image.new }
    ensures kept { OnErr result (out.new ≡ out.old) }
{
    let mut told = Text::new(alloc);
    let changed = change_and_tell(alloc, image, script, &mut told)?;
    append(out, told)?;
    Ok(changed)
}

/// Appends the answer of `apply` to a script in an image that was read: each command is performed in the image after those
/// before it, and the file of the last image is written; or the first line that is wrong is told, or the first command that
/// is refused.
///
/// The image is then the one after the commands that were performed. What is kept of it is not taken apart: the program is to
/// end after the answer.
///
/// # Errors
///
/// `Memory` where there is no memory for the commands or for the answer; `out` is then as it was.
pub fn apply_script(
    alloc: Global,
    image: &mut Image,
    script: &[u8],
    out: &mut Text,
) -> Result<Status, Memory>
    requires orderly { IsOrderly image.old }
    requires live { AllLive image.old }
    requires empty { out.old ≡ [] }
    ensures answered { IfOk result (λ status. AppliesIn (image_of image.old) script.now status out.new) }
    ensures kept { OnErr result (out.new ≡ out.old) }
{
    match change_image(alloc, image, script, out)? {
        Changed::Done { .. } => {
            write_image(alloc, image, out)?;
            Ok(Status::Done)
        }
        Changed::Told(status) => Ok(status),
    }
}
