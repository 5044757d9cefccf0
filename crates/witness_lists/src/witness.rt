// What is in the way of a condition that is false.
ghost use Rattle.std.specs.Prelude.{◌≡◌, ◌++◌, OnOk};
ghost use Rattle.class_table.specs.Slots.{Slots};
ghost use Rattle.refusal_witnesses.specs.Witnesses.{a_node, where_true};
ghost use Rattle.witness_lists.specs.Views.{owner_of, shown, witness_of};

use class_table::MethodSlot;
use name_meanings::Meaning;
use rb_base::{Memory, NameId, Span};
use st_tree::Path;
use std::alloc::Global;

/// Where a witness stands.
#[derive(Clone, Copy, Debug)]
pub enum Owner {
    /// In the method of a slot.
    Method(MethodSlot),
    /// In the method of a number among the methods of the image, from 0.
    Numbered(usize),
    /// In the do-it of a number, from 0.
    DoIt(usize),
}

/// What is in the way.
#[derive(Drop)]
pub enum Witness {
    /// A node.
    Node {
        owner: Owner,
        path: Path,
    },
    /// So many neighbouring statements, from the number of the first on, of the sequence to which a path leads, with the
    /// places of the source between which they stand.
    Statements {
        owner: Owner,
        path: Path,
        first: usize,
        count: usize,
        span: Span,
    },
    /// A whole method or do-it.
    Whole(Owner),
    Class(NameId),
    /// A selector with a meaning of its own.
    Selector(NameId),
    /// A step of a certificate, from 1.
    Step(usize),
    /// A name at a node, with what it means there and elsewhere.
    Meanings {
        owner: Owner,
        path: Path,
        name: NameId,
        one: Meaning,
        other: Meaning,
    },
}

/// Appends the witness, if a test is true.
pub fn push_if(test: bool, witness: Witness, found: &mut Vec<Witness>) -> Result<(), Memory>
    ensures { (s : Slots) → OnOk result (shown s found.new.items ≡ shown s found.old.items ++ where_true test (witness_of s witness)) }
{
    if test {
        found.push(witness)?;
    }
    Ok(())
}

/// Appends the node to which a path leads, if a test is true. Want of memory, if there is not enough of it for the path.
pub fn push_node_if(
    alloc: Global,
    test: bool,
    owner: &Owner,
    path: &Path,
    found: &mut Vec<Witness>,
) -> Result<(), Memory>
    ensures { (s : Slots) → OnOk result (shown s found.new.items ≡ shown s found.old.items ++ where_true test (a_node (owner_of s owner.now) path.now)) }
{
    if test {
        let path = path.try_copy(alloc)?;
        found.push(Witness::Node {
            owner: *owner,
            path,
        })?;
    }
    Ok(())
}
