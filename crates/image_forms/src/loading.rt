// Files and the lines of their refusals.
ghost use Rattle.std.specs.Prelude.{◌≡◌, ◌≤◌, ◌++◌, [], OnOk, OnErr, IfOk, MatchResult};
ghost use Rattle.rb_base.specs.Outside.{MayGive};
ghost use Rattle.image_forms.specs.Loads.{Refuses, world, line};

use crate::status::Status;
use rb_base::{Memory, Shelf, ShelfError, Text};
use std::alloc::Global;

/// The most bytes of a file with an image.
pub const IMAGE_LIMIT: u32 = 4194304;

/// Appends a line of these two texts.
pub fn push_line(out: &mut Text, text: &str, name: &[u8]) -> Result<(), Memory>
    ensures { OnOk result (out.new ≡ out.old ++ line (text.now ++ name.now)) }
{
    out.push_slice(text.as_bytes())?;
    out.push_slice(name)?;
    out.push_slice(b"\n")
}

/// Loads a file, or writes the line of its refusal and answers the status.
pub fn load<F: Shelf>(
    alloc: Global,
    shelf: &mut F,
    name: &str,
    limit: u32,
    out: &mut Text,
) -> Result<Result<Vec<u8>, Status>, Memory>
    requires { out.old ≡ [] }
    ensures loaded { IfOk result (λ r. MatchResult r
        (λ bytes. MayGive (F.told shelf.old name.now) limit bytes.items × (out.new ≡ []))
        (λ status. Refuses (world F.told F.faults F.taken shelf.old shelf.new) name.now limit status out.new)) }
    ensures same { F.told shelf.new ≡ F.told shelf.old }
    ensures more_faults { F.faults shelf.old ≤ F.faults shelf.new }
    ensures more_taken { F.taken shelf.old ≤ F.taken shelf.new }
{
    let mut bytes = Vec::new(alloc);
    match shelf.load(name, limit, &mut bytes) {
        Ok(()) => Ok(Ok(bytes)),
        Err(ShelfError::Failed) => {
            push_line(out, "cannot read ", name.as_bytes())?;
            Ok(Err(Status::Read))
        }
        Err(ShelfError::TooLarge) => {
            push_line(out, "too large ", name.as_bytes())?;
            Ok(Err(Status::TooLarge))
        }
        Err(ShelfError::Memory) => Err(Memory),
    }
}
