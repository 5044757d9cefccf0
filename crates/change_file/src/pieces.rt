// Pieces of which chunks consist.
ghost use Rattle.std.specs.Prelude.{◌≡◌, ◌++◌, OnOk};
ghost use Rattle.std.specs.Fmt.{decimal};
ghost use Rattle.rb_base.specs.Names.{text_eq};

use rb_base::{Memory, Text};
use std::alloc::Global;

/// Appends a number in decimal.
pub(crate) fn push_number(alloc: Global, number: usize, out: &mut Text) -> Result<(), Memory>
    ensures { OnOk result (out.new ≡ out.old ++ decimal number) }
{
    let digits = format!(in alloc; "{number}")?;
    out.push_slice(digits.as_bytes())
}

/// Whether two texts are equal.
pub(crate) fn same_text(text: &[u8], other: &[u8]) -> bool
    ensures { result ≡ text_eq text.now other.now }
{
    text == other
}
