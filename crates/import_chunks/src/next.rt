// What the next chunk is, and why a chunk was not imported.
ghost use Rattle.std.specs.Prelude.{◌≡◌, Some, None};
ghost use Rattle.st_faults.specs.Faults.{fault_of};
ghost use Rattle.grammar_model.specs.Checks.{Fault};
ghost use Rattle.file_faults.specs.declared.fault.ImageCause.TheVariants as cause;
ghost use Rattle.import_chunks.specs.declared.next.Stop.TheVariants as stop;

use file_faults::ImageCause;
use rb_base::{Memory, NameId};
use st_faults::ParseFault;

/// What the next chunk is.
#[derive(Clone, Copy)]
pub(crate) enum Next {
    /// It stands outside a run of methods.
    Outside,
    /// It stands in one.
    InRun,
    /// It is the comment of a class, which the chunk of this number announced.
    AtComment { class: NameId, chunk: usize },
}

/// Why a chunk was not imported.
#[derive(Clone, Copy)]
pub(crate) enum Stop {
    /// It is refused.
    Refused(ImageCause),
    /// Want of memory.
    Memory,
}

impl From<Memory> for Stop {
    ghost from_gives = { λ _ e. e ≡ stop.Memory };

    fn from(_error: Memory) -> Stop {
        Stop::Memory
    }
}

/// Why a chunk is not imported whose source has a fault of the grammar, or for whose tree memory is wanting.
pub(crate) fn stop_of(fault: ParseFault) -> Stop
    ensures told { (f : Fault) → fault_of fault ≡ Some f → result ≡ stop.Refused (cause.Syntax fault) }
    ensures memory { fault_of fault ≡ None → result ≡ stop.Memory }
{
    match fault {
        ParseFault::Memory => Stop::Memory,
        _ => Stop::Refused(ImageCause::Syntax(fault)),
    }
}
