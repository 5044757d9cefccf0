// A sequence of a method that is changed in place.
ghost use Rattle.std.specs.Prelude.{ℕ, ◌≡◌, OnOk};
ghost use Rattle.tree_model.specs.Tree.{SequenceOf};
ghost use Rattle.st_tree.specs.View.{sequence_of, method_of};
ghost use Rattle.command_model.specs.Sequences.{block_changed, sequence_changed};

use rb_base::Memory;
use st_tree::{Method, Node, NodeKind, Path, Sequence, part_at};
use std::alloc::Global;
use tree_lending::put_at;

/// What becomes of a sequence.
pub trait Changing {
    /// What it becomes.
    ghost changing: { Self → SequenceOf ℕ → SequenceOf ℕ };

    /// Changes a sequence. After an error it may be anything.
    fn change(&self, alloc: Global, body: &mut Sequence) -> Result<(), Memory>
        ensures { OnOk result (sequence_of body.new ≡ changing self.now (sequence_of body.old)) };
}

/// Changes the sequence of a block. Any other node stays.
fn change_block<C: Changing>(alloc: Global, changing: &C, node: &mut Node) -> Result<(), Memory>
    ensures { OnOk result (node.new ≡ block_changed (C.changing changing.now) node.old) }
{
    match &mut node.kind {
        NodeKind::Block { body, .. } => changing.change(alloc, body),
        _ => Ok(()),
    }
}

/// Changes the sequence to which the path leads: the body for the empty path, and else that of a block. Where no block stands
/// there nothing changes. After an error the method may be anything.
pub fn change_sequence<C: Changing>(
    alloc: Global,
    changing: &C,
    method: &mut Method,
    path: &Path,
) -> Result<(), Memory>
    ensures { OnOk result (method_of method.new ≡ sequence_changed (C.changing changing.now) path.now (method_of method.old)) }
{
    if path.len() == 0 {
        return changing.change(alloc, &mut method.body);
    }
    let Some(block) = part_at(method, path) else {
        return Ok(());
    };
    let mut block = block.try_copy(alloc)?;
    change_block(alloc, changing, &mut block)?;
    put_at(method, path, block);
    Ok(())
}
