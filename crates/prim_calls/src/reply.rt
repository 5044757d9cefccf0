// What primitives answer.
ghost use Rattle.std.specs.Prelude.{◌≡◌, None};
ghost use Rattle.st_meaning.specs.ErrorView.{error_of};

use st_meaning::{Event, Object, RunError, RunErrorKind, Value, Values};

/// What a primitive comes to, before it is done. `reply_of` in specs/ is what it stands for.
#[derive(Drop)]
pub enum Reply {
    /// An answer.
    Answers {
        /// How many ticks are wanted before anything else happens.
        ticks: usize,
        /// The event that is told.
        told: Option<Event>,
        value: Value,
        change: Change,
    },
    /// A fault, which leaves all as it was.
    Faults(RunError),
    /// The closure of a number in the store is entered with the arguments.
    Enters(usize),
}

/// How a primitive changes the heap.
#[derive(Drop)]
pub enum Change {
    Nothing,
    /// A new object, which gets the next number.
    NewObject(Object),
    /// A new array, which gets the next number.
    NewArray(Values),
    /// An element of the array of a number is stored, at a place from 0.
    Element {
        array: usize,
        at: usize,
        value: Value,
    },
}

impl Reply {
    /// An answer that wants no ticks and changes nothing.
    pub fn at_once(value: Value) -> Reply
        ensures { result ≡ Reply.Answers 0 None value Change.Nothing }
    {
        Reply::Answers {
            ticks: 0,
            told: None,
            value,
            change: Change::Nothing,
        }
    }

    /// A fault.
    pub fn fault(kind: RunErrorKind) -> Reply
        ensures { result ≡ Reply.Faults (error_of kind) }
    {
        Reply::Faults(RunError::new(kind))
    }
}
