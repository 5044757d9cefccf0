// The answer to a script in an image.
ghost use Rattle.std.specs.Prelude.{◌≡◌, ◌<◌, ◌++◌, ℕ, List, [], codes, length, Some, option_map, slice_get, IfOk, IfErr, OnOk, OnErr};
ghost use Rattle.std.specs.Fmt.{decimal};
ghost use Rattle.std.specs.List.{flat_map};
ghost use Rattle.scope_model.specs.FreeNames.{each_once};
ghost use Rattle.refusal_witnesses.specs.Lines.{line_of};
ghost use Rattle.why_model.specs.Explained.{step_text};
ghost use Rattle.class_table.specs.Valid.{IsOrderly};
ghost use Rattle.class_table.specs.View.{image_of};
ghost use Rattle.commands.specs.Actions.{map_action, ActionNames};
ghost use Rattle.commands.specs.Views.{action_of, HasSelf};
ghost use Rattle.live_slots.specs.Live.{AllLive};
ghost use Rattle.wider_slots.specs.Closed.{IsClosed};
ghost use Rattle.event_trees.specs.Naming.{Grows};
ghost use Rattle.script_model.specs.Commands.{Cause};
ghost use Rattle.script_model.specs.Scripts.{Says, IsRefused};
ghost use Rattle.script_lang.specs.Shown.{fault_shown, line_in, lines_in, AreKnown, IsKnownLine};
ghost use Rattle.history_model.specs.Rules.{Perform};
ghost use Rattle.ruled_model.specs.RuledScripts.{Acts, Refusal};
ghost use Rattle.session.specs.Log.{IsLogOf};
ghost use Rattle.session.specs.History.{history_of};
ghost use Rattle.applied_scripts.specs.Refused.{refusal_shown};
ghost use Rattle.why_model.specs.Why.{WhyIn};
ghost use Rattle.explained_scripts.specs.Shown.{told_of, told_shown, IsTold, Shows};
ghost use Rattle.rb_base.specs.Names.{name_at, text_eq};

use crate::judging::refused_of;
use crate::lines::{NumberedLine, line_at, push_each_once, push_script_line};
use crate::rules::rule_lines;
use crate::sentences::sentence;
use crate::witnesses::command_lines;
use applied_scripts::{Stop, perform_all, push_stop, script_lines};
use apply_model::Status;
use class_table::Image;
use commands::{Action, Request};
use rb_base::{Memory, Steps, Text};
use refusal_lines::push_script_line as push_fault;
use script_lang::{ScriptFault, ScriptLine};
use script_model::has_one_reading;
use session::Session;
use std::alloc::Global;
use std::marker::Brand;
use std::mem::forget;
use std::sync::ledger::{Blank, Ledger};

/// What is in the way of a line of a script.
#[derive(Drop)]
struct Hindered {
    /// The step of a composite that is refused, from 1.
    step: Option<usize>,
    /// The lines of the witnesses.
    lines: Vec<Text>,
}

/// What is told of a line that is refused.
#[derive(Clone, Copy)]
struct Told {
    /// The number of the line among those that say something, from 1.
    number: usize,
    /// What must be so.
    sentence: &'static [u8],
}

/// The lines of a script, read twice.
#[derive(Drop)]
struct Readings {
    first: Vec<ScriptLine>,
    second: Vec<ScriptLine>,
}

/// What is in the way of an action that is refused. Want of memory also if it is not, which the caller knows.
fn action_hindered<L: Ledger>(
    alloc: Global,
    session: &mut Session,
    image: &mut Image,
    action: Action,
    steps: &mut Steps<L>,
) -> Result<Hindered, Memory>
    requires log { IsLogOf image.old session.old }
    requires self_known { HasSelf image.old.names }
    requires known { ActionNames (λ n. n < length image.old.names) (action_of action) }
    ensures { IfOk result (Shows (history_of image.old session.old) (Perform (Acts (map_action (name_at image.old.names) (action_of action))))) }
{
    let Some(refused) = refused_of(alloc, session, image, action, steps)? else {
        return Err(Memory);
    };
    let lines = command_lines(alloc, image, &refused, steps)?;
    Ok(Hindered {
        step: refused.step,
        lines,
    })
}

/// What is in the way of a line that is refused; of `undo` and `redo` nothing is.
fn line_hindered<L: Ledger>(
    alloc: Global,
    session: &mut Session,
    image: &mut Image,
    line: ScriptLine,
    steps: &mut Steps<L>,
) -> Result<Hindered, Memory>
    requires log { IsLogOf image.old session.old }
    requires self_known { HasSelf image.old.names }
    requires known { IsKnownLine image.old.names line }
    ensures { IfOk result (Shows (history_of image.old session.old) (line_in image.old.names line)) }
{
    match line {
        ScriptLine::Request(Request::Perform(action)) => {
            action_hindered(alloc, session, image, action, steps)
        }
        ScriptLine::Rule(request) => {
            let lines = rule_lines(alloc, image, &request, steps)?;
            Ok(Hindered { step: None, lines })
        }
        ScriptLine::Request(Request::Undo) | ScriptLine::Request(Request::Redo) => Ok(Hindered {
            step: None,
            lines: Vec::new(alloc),
        }),
    }
}

/// What is told of the line at which lines stop. None if memory is wanting.
fn told_by(stop: &Stop) -> Option<Told>
    ensures { (names : List (List ℕ)) → option_map told_shown result ≡ option_map told_of (refusal_shown names stop.now) }
{
    match stop {
        Stop::Refused { number, condition } => Some(Told {
            number: *number,
            sentence: sentence(condition),
        }),
        Stop::NotDerived { number, .. } => Some(Told {
            number: *number,
            sentence: b"The steps of the certificate lead from the pattern to the replacement.",
        }),
        Stop::Memory => None,
    }
}

/// The line at a place, if there is one.
fn take_line(mut lines: Vec<ScriptLine>, place: usize) -> Option<ScriptLine>
    ensures { result ≡ slice_get lines.items place }
{
    if place < lines.len() {
        Some(lines.swap_remove(place))
    } else {
        None
    }
}

/// Appends the script's line with its number, the sentence, and the lines of what is in the way, each once.
fn push_hindered(
    alloc: Global,
    line: NumberedLine<'_>,
    sentence: &[u8],
    hindered: &Hindered,
    out: &mut Text,
) -> Result<(), Memory>
    ensures { OnOk result (out.new ≡ out.old ++ line_of (codes "line " ++ decimal line.entry.number ++ codes " " ++ line.entry.text.now ++ step_text hindered.now.step) ++ line_of sentence.now ++ flat_map (λ (text : List ℕ). text) (each_once text_eq hindered.now.lines.items)) }
{
    push_script_line(alloc, line, hindered.step, out)?;
    out.push_slice(sentence)?;
    out.push_slice(b"\n")?;
    push_each_once(alloc, hindered.lines.as_slice(), out)
}

/// Appends why lines stop: the line that tells it, the script's line with its number, the sentence of the reason, and the lines
/// of what is in its way. `asked` has what all lines ask for.
fn push_explained<L: Ledger>(
    alloc: Global,
    session: &mut Session,
    image: &mut Image,
    script: &[u8],
    asked: Vec<ScriptLine>,
    stop: &Stop,
    steps: &mut Steps<L>,
    out: &mut Text,
) -> Result<(), Memory>
    requires log { IsLogOf image.old session.old }
    requires self_known { HasSelf image.old.names }
    requires known { AreKnown image.old.names asked.items }
    ensures { OnOk result ((refusal : Refusal) × (refusal_shown image.old.names stop.now ≡ Some refusal) × IsTold (history_of image.old session.old) script.now (lines_in image.old.names asked.items) refusal out.old out.new) }
{
    let Some(told) = told_by(stop) else {
        return Err(Memory);
    };
    let place = told.number.saturating_sub(1);
    let Some(line) = line_at(alloc, script, place)? else {
        return Err(Memory);
    };
    let Some(asked) = take_line(asked, place) else {
        return Err(Memory);
    };
    push_stop(stop, image.names(), out)?;
    let hindered = line_hindered(alloc, session, image, asked, steps)?;
    push_hindered(alloc, line, told.sentence, &hindered, out)
}

/// Performs lines in the image, for which the session is opened, and explains the first one that is refused. `asked` has what
/// the same lines ask for once more.
fn explain_counted<L: Ledger>(
    alloc: Global,
    session: &mut Session,
    image: &mut Image,
    script: &[u8],
    lines: Readings,
    blank: Blank,
    out: &mut Text,
) -> Result<Status, Memory>
    requires orderly { IsOrderly image.old }
    requires closed { IsClosed image.old }
    requires self_known { HasSelf image.old.names }
    requires known { AreKnown image.old.names lines.first.items }
    requires asked { AreKnown image.old.names lines.second.items }
    requires says { Says script.now (lines_in image.old.names lines.first.items) }
    requires repeats { Says script.now (lines_in image.old.names lines.second.items) }
    requires empty { out.old ≡ [] }
    requires name { blank.name ≡ L.name }
    requires parts { blank.parts ≡ L.parts }
    requires some { 0 < L.parts }
    ensures { IfOk result (λ status. WhyIn (image_of image.old) script.now status out.new) }
{
    has_one_reading();
    let mut steps = Steps::<L>::new(blank);
    image.reindex()?;
    session.open(image, &mut steps)?;
    match perform_all(session, image, lines.first, &mut steps) {
        Ok(()) => Ok(Status::Done),
        Err(stop) => {
            push_explained(
                alloc,
                session,
                image,
                script,
                lines.second,
                &stop,
                &mut steps,
                out,
            )?;
            Ok(Status::Condition)
        }
    }
}

/// Reads the lines of a script twice.
fn lines_twice(alloc: Global, script: &[u8], image: &mut Image) -> Result<Readings, ScriptFault>
    requires orderly { IsOrderly image.old }
    requires live { AllLive image.old }
    ensures image { image_of image.new ≡ image_of image.old }
    ensures orderly { IsOrderly image.new }
    ensures closed { IsClosed image.new }
    ensures self_known { OnOk result (HasSelf image.new.names) }
    ensures known { IfOk result (λ r. AreKnown image.new.names r.first.items) }
    ensures asked { IfOk result (λ r. AreKnown image.new.names r.second.items) }
    ensures says { IfOk result (λ r. Says script.now (lines_in image.new.names r.first.items)) }
    ensures repeats { IfOk result (λ r. Says script.now (lines_in image.new.names r.second.items)) }
    ensures fault { IfErr result (λ f. (n : ℕ) (cause : Cause) → fault_shown f ≡ Some (n, cause) → IsRefused script.now n cause) }
{
    let first = script_lines(alloc, script, image)?;
    let second = script_lines(alloc, script, image)?;
    Ok(Readings { first, second })
}

/// Appends the answer of `why`. On want of memory a part of the answer may be appended.
fn explain_and_tell(
    alloc: Global,
    image: &mut Image,
    script: &[u8],
    out: &mut Text,
) -> Result<Status, Memory>
    requires orderly { IsOrderly image.old }
    requires live { AllLive image.old }
    requires empty { out.old ≡ [] }
    ensures { IfOk result (λ status. WhyIn (image_of image.old) script.now status out.new) }
{
    match lines_twice(alloc, script, image) {
        Ok(lines) => {
            let mut session = Session::new(alloc);
            let blank = Blank::new(1);
            let status = explain_counted::<Brand>(
                alloc,
                &mut session,
                image,
                script,
                lines,
                blank,
                out,
            );
            // The program ends soon, so the session is not taken apart piece by piece.
            forget(session);
            status
        }
        Err(fault) => {
            push_fault(fault, out)?;
            Ok(Status::ScriptText)
        }
    }
}

/// Appends the answer of `why` to a script in an image that was read: nothing, if each command is accepted; the first line that
/// is wrong; or why the first command that is refused is refused, and what is in its way.
///
/// The image is then one after some of the commands. What is kept of it is not taken apart: the program is to end after the
/// answer.
///
/// # Errors
///
/// `Memory` if there is no memory for the commands or for the answer, or if a source does not spell its code; `out` is then as
/// it was.
pub fn explain_script(
    alloc: Global,
    image: &mut Image,
    script: &[u8],
    out: &mut Text,
) -> Result<Status, Memory>
    requires orderly { IsOrderly image.old }
    requires live { AllLive image.old }
    requires empty { out.old ≡ [] }
    ensures answered { IfOk result (λ status. WhyIn (image_of image.old) script.now status out.new) }
    ensures kept { OnErr result (out.new ≡ out.old) }
{
    let mut told = Text::new(alloc);
    let status = explain_and_tell(alloc, image, script, &mut told)?;
    out.push_slice(told.as_slice())?;
    Ok(status)
}
