// The place of a cause.
ghost use Rattle.std.specs.Prelude.{◌≡◌, Some};
ghost use Rattle.grammar_model.specs.Checks.{Fault};
ghost use Rattle.st_faults.specs.Faults.{fault_of};
ghost use Rattle.file_model.specs.Causes as model;
ghost use Rattle.file_model.specs.Causes.{Cause};
ghost use Rattle.file_model.specs.Reading as reading;
ghost use Rattle.file_faults.specs.Faults.{cause_of, refusal_of};

use crate::fault::{ImageCause, ImageFault};
use chunk_format::Unended;
use st_faults::{LexFault, ParseFault};

/// Where a token that is none begins.
fn lexical_place(fault: LexFault) -> usize
    ensures { result ≡ model.place_of_lexical fault }
{
    match fault {
        LexFault::BadByte { at } => at,
        LexFault::OpenString { at } => at,
        LexFault::OpenComment { at } => at,
        LexFault::BadNumeral { at } => at,
    }
}

/// The place of a fault in the source that has it, and 0 for want of memory.
fn fault_place(fault: ParseFault) -> usize
    ensures { (f : Fault) → fault_of fault ≡ Some f → result ≡ model.place_of_fault f }
{
    match fault {
        ParseFault::Lexical(fault) => lexical_place(fault),
        ParseFault::Expected { at, .. } => at,
        ParseFault::AssignsFixed { at } => at,
        ParseFault::TooDeep { at } => at,
        ParseFault::PrimitiveInUser { at } => at,
        ParseFault::DuplicateName { at } => at,
        ParseFault::Memory => 0,
    }
}

/// The place of a cause in the source of its chunk.
fn place_of(cause: ImageCause) -> usize
    ensures { (c : Cause) → cause_of cause ≡ Some c → result ≡ model.place_of c }
{
    match cause {
        ImageCause::Syntax(fault) => fault_place(fault),
        _ => 0,
    }
}

/// The fault of a chunk, by its number and the cause. The cause is not `Unended`, and a `Syntax` holds no want of memory.
pub fn refused(chunk: usize, cause: ImageCause) -> ImageFault
    ensures { (c : Cause) → cause_of cause ≡ Some c → refusal_of result ≡ Some (record { chunk = chunk; at = model.place_of c; cause = c }) }
{
    ImageFault::Refused {
        chunk,
        at: place_of(cause),
        cause,
    }
}

/// The fault of a file-out whose last chunk has no end.
pub fn no_end(unended: Unended) -> ImageFault
    ensures { refusal_of result ≡ Some (reading.no_end unended) }
{
    ImageFault::Refused {
        chunk: unended.number,
        at: unended.at,
        cause: ImageCause::Unended,
    }
}
