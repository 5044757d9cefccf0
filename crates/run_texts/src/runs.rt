// The texts of whole runs.
ghost use Rattle.std.specs.Prelude.{◌≡◌, ◌++◌, ◌∷◌, [], codes, flat_map, reverse, OnOk, OnErr};
ghost use Rattle.run_model.specs.Views.{event_text, outcome_text, line_end, run_text};

use crate::atoms::{write_numbered, write_view};
use crate::errors::write_error;
use rb_base::{Memory, Text};
use st_meaning::{Event, EventKind, Outcome, OutcomeKind};
use std::alloc::Global;

/// Appends what a run told: bytes that it showed as they are, and a value that it printed as `write_view` does.
fn write_event(alloc: Global, event: &Event, out: &mut Text) -> Result<(), Memory>
    ensures { OnOk result (out.new ≡ out.old ++ event_text event.now) }
{
    match &event.kind {
        EventKind::Shown(text) => out.push_slice(text.as_slice()),
        EventKind::Printed(view) => write_view(alloc, view, out),
    }
}

/// Appends the texts of events, one after the other.
fn write_events(alloc: Global, events: &[Event], out: &mut Text) -> Result<(), Memory>
    ensures { OnOk result (out.new ≡ out.old ++ flat_map event_text events.now) }
{
    for event in events {
        write_event(alloc, event, out)?;
    }
    Ok(())
}

/// Appends how a run came out: `=> ` and its result, `error ` and its error, or `spent ` and how many ticks it had.
fn write_outcome(
    alloc: Global,
    outcome: &Outcome,
    budget: u32,
    out: &mut Text,
) -> Result<(), Memory>
    ensures { OnOk result (out.new ≡ out.old ++ outcome_text budget outcome.now) }
{
    match &outcome.kind {
        OutcomeKind::Done(view) => {
            out.push_slice(b"=> ")?;
            write_view(alloc, view, out)
        }
        OutcomeKind::Failed(error) => {
            out.push_slice(b"error ")?;
            write_error(alloc, error, out)
        }
        OutcomeKind::Spent => write_numbered(alloc, b"spent ", budget as usize, out),
    }
}

/// What ends the last line of a text: a line feed where the text is not empty and does not end with one.
fn line_end(text: &[u8]) -> &'static [u8]
    ensures { result.now ≡ line_end (reverse text.now) }
{
    match text.split_last() {
        Some((last, _)) if *last != b'\n' => b"\n",
        _ => b"",
    }
}

/// Appends what is printed of a run that had so many ticks (`budget`): what it told, a line feed where that is not empty
/// and does not end with one, and a line with how it came out.
///
/// # Errors
///
/// `Memory` where there is no memory for the text; `out` is then as it was.
pub fn write_run(
    alloc: Global,
    events: &[Event],
    outcome: &Outcome,
    budget: u32,
    out: &mut Text,
) -> Result<(), Memory>
    ensures written { OnOk result (out.new ≡ out.old ++ run_text budget events.now outcome.now) }
    ensures kept { OnErr result (out.new ≡ out.old) }
{
    let mut text = Text::new(alloc);
    write_events(alloc, events, &mut text)?;
    let end = line_end(text.as_slice());
    text.push_slice(end)?;
    write_outcome(alloc, outcome, budget, &mut text)?;
    text.push_slice(b"\n")?;
    out.push_slice(text.as_slice())
}
