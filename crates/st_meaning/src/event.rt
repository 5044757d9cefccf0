// What a run tells, and how it comes out.
ghost use Rattle.std.specs.Prelude.{◌≡◌};
ghost use Rattle.run_model.specs.Values.{shown, printed};
ghost use Rattle.st_meaning.specs.OutcomeView.{outcome_from};

use crate::error::RunError;
use crate::text::SharedText;
use crate::view::View;
use std::marker::Model;

/// What a run tells while it goes on. Contracts see it as abstract data, an `Event` of runs.
#[derive(Drop)]
pub struct Event {
    /// What the event is.
    pub kind: EventKind,
}

/// What an event is.
#[derive(Drop)]
pub enum EventKind {
    /// Bytes that are shown.
    Shown(SharedText),
    /// A value that is printed.
    Printed(View),
}

/// How a run comes out. Contracts see it as abstract data, an `Outcome` of runs.
#[derive(Drop)]
pub struct Outcome {
    /// What the outcome is.
    pub kind: OutcomeKind,
}

/// What an outcome is.
#[derive(Drop)]
pub enum OutcomeKind {
    /// The view of the result.
    Done(View),
    Failed(RunError),
    /// A tick was wanted and none was left.
    Spent,
}

impl Model for Event {
    ghost use Rattle.run_model.specs.Values as run;

    ghost Value = { run.Event };

    ghost use Rattle.st_meaning.specs.EventView.{event_of};

    ghost view = { λ a. event_of a.kind };
}

impl Model for Outcome {
    ghost use Rattle.run_model.specs.Values as run;

    ghost Value = { run.Outcome };

    ghost use Rattle.st_meaning.specs.OutcomeView.{outcome_from};

    ghost view = { λ a. outcome_from a.kind };
}

impl Event {
    /// Bytes that are shown.
    pub fn shown(text: SharedText) -> Event
        ensures { result ≡ shown text }
    {
        Event {
            kind: EventKind::Shown(text),
        }
    }

    /// A value that is printed.
    pub fn printed(view: View) -> Event
        ensures { result ≡ printed view }
    {
        Event {
            kind: EventKind::Printed(view),
        }
    }
}

impl Outcome {
    /// The outcome of a kind.
    pub fn new(kind: OutcomeKind) -> Outcome
        ensures { result ≡ outcome_from kind }
    {
        Outcome { kind }
    }
}
