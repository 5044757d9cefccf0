// Faults of the grammar in chunks.
ghost use Rattle.std.specs.Prelude.{◌≡◌, Some, None};
ghost use Rattle.st_faults.specs.Faults.{fault_of};
ghost use Rattle.grammar_model.specs.Checks.{Fault};
ghost use Rattle.file_faults.specs.declared.fault.ImageCause.TheVariants as cause;
ghost use Rattle.file_reading.specs.declared.reading.Stop.TheVariants as stop;

use crate::reading::Stop;
use file_faults::ImageCause;
use st_parser::ParseFault;

/// Why a chunk is not taken whose source has a fault of the grammar, or for whose tree memory is wanting.
pub(crate) fn stop_of(fault: ParseFault) -> Stop
    ensures told { (f : Fault) → fault_of fault ≡ Some f → result ≡ stop.Refused (cause.Syntax fault) }
    ensures memory { fault_of fault ≡ None → result ≡ stop.Memory }
{
    match fault {
        ParseFault::Memory => Stop::Memory,
        _ => Stop::Refused(ImageCause::Syntax(fault)),
    }
}
