// Why runs fail.
ghost use Rattle.std.specs.Prelude.{◌≡◌};
ghost use Rattle.st_meaning.specs.ErrorView.{error_of};

use crate::text::SharedText;
use std::marker::Model;

/// Why a run fails. Contracts see it as abstract data, a `RunError` of runs.
#[derive(Drop)]
pub struct RunError {
    /// What the error is.
    pub kind: RunErrorKind,
}

/// What an error is.
#[derive(Drop)]
pub enum RunErrorKind {
    /// No method is found for a message.
    DoesNotUnderstand {
        /// The name of the receiver's class, or of the class that is the receiver.
        class: SharedText,
        /// Whether the receiver is a class.
        meta: bool,
        selector: SharedText,
    },
    /// A return from a home that has ended.
    CannotReturn,
    /// A test of a value that is neither true nor false.
    NonBoolean,
    /// A name that stands for nothing.
    Undeclared {
        name: SharedText,
    },
    /// A name that cannot be assigned.
    NotAssignable {
        name: SharedText,
    },
    /// A literal that is only kept, or a quotient that is not whole.
    Unsupported,
    /// A message or name that asks for the program itself.
    Reflective,
    /// An integer that is none of 64 bits.
    Overflow,
    DivideByZero,
    /// An index outside.
    BadIndex,
    /// A receiver or argument of the wrong kind.
    BadArgument {
        /// The number of the primitive, from 0 to 65,535.
        primitive: u16,
    },
    /// A closure that has not as many parameters as there are arguments.
    WrongArity {
        /// How many arguments there are.
        given: usize,
    },
    /// A string, symbol or array over 65,535 long.
    TooLong,
    /// An error that the program itself raised.
    UserError {
        text: SharedText,
    },
}

impl Model for RunError {
    ghost use Rattle.run_model.specs.Values as run;

    ghost Value = { run.RunError };

    ghost use Rattle.st_meaning.specs.ErrorView.{error_of};

    ghost view = { λ a. error_of a.kind };
}

impl RunError {
    /// The error of a kind.
    pub fn new(kind: RunErrorKind) -> RunError
        ensures { result ≡ error_of kind }
    {
        RunError { kind }
    }
}
