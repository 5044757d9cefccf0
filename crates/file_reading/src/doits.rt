// Do-its with their sources.
ghost use Rattle.std.specs.Prelude.{◌≡◌, IfOk};
ghost use Rattle.st_tree.specs.View.{sequence_of};
ghost use Rattle.class_table.specs.View as view;

use class_table::DoIt;
use rb_base::{Memory, Text};
use st_tree::Sequence;
use std::alloc::Global;

/// The do-it of a source, which is copied, and of the tree that it spells.
pub(crate) fn doit_of(alloc: Global, source: &[u8], body: Sequence) -> Result<DoIt, Memory>
    ensures { IfOk result (λ doit. view.doit_of doit ≡ record { source = source.now; body = sequence_of body }) }
{
    let source = Text::from_slice(alloc, source)?;
    Ok(DoIt { source, body })
}
