// The texts of errors.
ghost use Rattle.std.specs.Prelude.{◌≡◌, ◌++◌, codes, [], OnOk, if◌then◌else◌};
ghost use Rattle.run_model.specs.Values.{does_not_understand};
ghost use Rattle.run_model.specs.Views.{error_text};

use crate::atoms::{write_numbered, write_pair};
use rb_base::{Memory, Text};
use st_meaning::{RunError, RunErrorKind};
use std::alloc::Global;

/// What stands behind the name of a class that is itself the receiver.
fn side(meta: bool) -> &'static str
    ensures { result.now ≡ (if meta then codes " class" else []) }
{
    if meta { " class" } else { "" }
}

/// Appends the error of a message that is not understood.
fn write_not_understood(
    class: &[u8],
    meta: bool,
    selector: &[u8],
    out: &mut Text,
) -> Result<(), Memory>
    ensures { OnOk result (out.new ≡ out.old ++ error_text (does_not_understand class.now meta selector.now)) }
{
    write_pair(b"DoesNotUnderstand ", class, out)?;
    out.push_slice(side(meta).as_bytes())?;
    write_pair(b" ", selector, out)
}

/// Appends how an error is printed: its name, and behind a blank each of its fields.
pub(crate) fn write_error(alloc: Global, error: &RunError, out: &mut Text) -> Result<(), Memory>
    ensures { OnOk result (out.new ≡ out.old ++ error_text error.now) }
{
    match &error.kind {
        RunErrorKind::DoesNotUnderstand {
            class,
            meta,
            selector,
        } => write_not_understood(class.as_slice(), *meta, selector.as_slice(), out),
        RunErrorKind::CannotReturn => out.push_slice(b"CannotReturn"),
        RunErrorKind::NonBoolean => out.push_slice(b"NonBoolean"),
        RunErrorKind::Undeclared { name } => write_pair(b"Undeclared ", name.as_slice(), out),
        RunErrorKind::NotAssignable { name } => write_pair(b"NotAssignable ", name.as_slice(), out),
        RunErrorKind::Unsupported => out.push_slice(b"Unsupported"),
        RunErrorKind::Reflective => out.push_slice(b"Reflective"),
        RunErrorKind::Overflow => out.push_slice(b"Overflow"),
        RunErrorKind::DivideByZero => out.push_slice(b"DivideByZero"),
        RunErrorKind::BadIndex => out.push_slice(b"BadIndex"),
        RunErrorKind::BadArgument { primitive } => {
            write_numbered(alloc, b"BadArgument ", *primitive as usize, out)
        }
        RunErrorKind::WrongArity { given } => write_numbered(alloc, b"WrongArity ", *given, out),
        RunErrorKind::TooLong => out.push_slice(b"TooLong"),
        RunErrorKind::UserError { text } => write_pair(b"UserError ", text.as_slice(), out),
    }
}
