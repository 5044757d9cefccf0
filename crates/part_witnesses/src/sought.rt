// The nodes of a method that are sought.
ghost use Rattle.std.specs.Prelude.{◌≡◌, ◌++◌, ◌&&◌, filter, length, map, nat_lt, OnOk};
ghost use Rattle.tree_model.specs.Nodes.{nodes};
ghost use Rattle.st_tree.specs.View.{sequence_of};
ghost use Rattle.command_model.specs.Places as places;
ghost use Rattle.commands.specs.Views.{asked_by};
ghost use Rattle.refusal_witnesses.specs.TemporaryWitnesses.{is_assignment_of};
ghost use Rattle.refusal_witnesses.specs.Witnesses.{a_node, nodes_that};
ghost use Rattle.witness_lists.specs.Views.{owner_of, shown};
ghost use Rattle.part_witnesses.specs.Sought.{is_sought};

use class_table::Image;
use part_questions::is_return;
use placed_nodes::{PlacedNode, placed_nodes};
use rb_base::{Memory, NameId};
use st_tree::{NodeKind, Sequence};
use std::alloc::Global;
use witness_lists::{Owner, Witness, push_node_if};

/// Which nodes are sought.
#[derive(Clone, Copy)]
enum Sought {
    /// Returns in blocks.
    BlockReturn,
    /// Assignments to the name.
    Assignment(NameId),
}

/// Whether the node is sought.
fn is_sought(sought: &Sought, placed: &PlacedNode<'_>) -> bool
    ensures { result ≡ is_sought sought.now (placed.now.path, placed.now.node.now) }
{
    let node = placed.node;
    match sought {
        Sought::BlockReturn => is_return(node) && 1 < placed.path.len(),
        Sought::Assignment(variable) => match &node.kind {
            NodeKind::Assign { name, .. } => *variable == *name,
            _ => false,
        },
    }
}

/// Appends the nodes of a body that are sought, as nodes of the owner.
fn sought_nodes(
    alloc: Global,
    image: &Image,
    sought: &Sought,
    owner: &Owner,
    body: &Sequence,
    found: &mut Vec<Witness>,
) -> Result<(), Memory>
    ensures { OnOk result (shown image.now found.new.items ≡ shown image.now found.old.items ++ map (λ e. a_node (owner_of image.now owner.now) e.0) (filter (is_sought sought.now) (nodes (sequence_of body.now)))) }
{
    let nodes = placed_nodes(alloc, body)?;
    for placed in nodes.as_slice() {
        let is_sought = is_sought(sought, placed);
        push_node_if(alloc, is_sought, owner, &placed.path, found)?;
    }
    Ok(())
}

/// Appends the returns in blocks of a body.
pub(crate) fn block_returns(
    alloc: Global,
    image: &Image,
    owner: &Owner,
    body: &Sequence,
    found: &mut Vec<Witness>,
) -> Result<(), Memory>
    ensures { OnOk result (shown image.now found.new.items ≡ shown image.now found.old.items ++ nodes_that (λ e. places.is_return e.1 && nat_lt 1 (length e.0)) (owner_of image.now owner.now) (sequence_of body.now)) }
{
    sought_nodes(alloc, image, &Sought::BlockReturn, owner, body, found)
}

/// Appends the assignments to a name in a body.
pub(crate) fn assignments_to(
    alloc: Global,
    image: &Image,
    name: NameId,
    owner: &Owner,
    body: &Sequence,
    found: &mut Vec<Witness>,
) -> Result<(), Memory>
    ensures { OnOk result (shown image.now found.new.items ≡ shown image.now found.old.items ++ nodes_that (is_assignment_of (asked_by image.now.names) name) (owner_of image.now owner.now) (sequence_of body.now)) }
{
    sought_nodes(alloc, image, &Sought::Assignment(name), owner, body, found)
}
