// The places of a method that declare a name.
ghost use Rattle.std.specs.Prelude.{◌≡◌, ◌++◌, filter, map, nat_eq, OnOk};
ghost use Rattle.std.specs.List.{flat_map};
ghost use Rattle.tree_model.specs.Nodes.{nodes};
ghost use Rattle.st_tree.specs.View.{sequence_of};
ghost use Rattle.class_table.specs.Slots.{Slots};
ghost use Rattle.commands.specs.Views.{asked_by};
ghost use Rattle.refusal_witnesses.specs.TemporaryWitnesses as model;
ghost use Rattle.refusal_witnesses.specs.Witnesses.{AWhole, a_node};
ghost use Rattle.witness_lists.specs.Views.{owner_of, shown};
ghost use Rattle.part_witnesses.specs.Changed.{declared_at};
ghost use Rattle.part_witnesses.specs.Held.{IsHeld, held_as};

use crate::held::Held;
use class_table::Image;
use parameter_questions::declares_once;
use placed_nodes::{PlacedNode, placed_nodes};
use rb_base::{Memory, NameId};
use st_tree::{NodeKind, Path, Sequence};
use std::alloc::Global;
use witness_lists::{Owner, Witness, push_if, push_node_if};

/// Appends the whole method of the owner for each time that the name is one of these.
fn wholes(
    owner: &Owner,
    names: &[NameId],
    name: NameId,
    found: &mut Vec<Witness>,
) -> Result<(), Memory>
    ensures { (s : Slots) → OnOk result (shown s found.new.items ≡ shown s found.old.items ++ map (λ y. AWhole (owner_of s owner.now)) (filter (nat_eq name) names.now)) }
{
    for other in names {
        push_if(name == *other, Witness::Whole(*owner), found)?;
    }
    Ok(())
}

/// Appends the node to which the path leads as often.
fn nodes_times(
    alloc: Global,
    owner: &Owner,
    path: &Path,
    names: &[NameId],
    name: NameId,
    found: &mut Vec<Witness>,
) -> Result<(), Memory>
    ensures { (s : Slots) → OnOk result (shown s found.new.items ≡ shown s found.old.items ++ map (λ y. a_node (owner_of s owner.now) path.now) (filter (nat_eq name) names.now)) }
{
    for other in names {
        push_node_if(alloc, name == *other, owner, path, found)?;
    }
    Ok(())
}

/// Appends the node to which the path leads for each time that the name is one of the parameters or of the temporaries.
fn block_times(
    alloc: Global,
    owner: &Owner,
    path: &Path,
    parameters: &[NameId],
    temporaries: &[NameId],
    name: NameId,
    found: &mut Vec<Witness>,
) -> Result<(), Memory>
    ensures { (s : Slots) → OnOk result (shown s found.new.items ≡ shown s found.old.items ++ map (λ y. a_node (owner_of s owner.now) path.now) (filter (nat_eq name) (parameters.now ++ temporaries.now))) }
{
    nodes_times(alloc, owner, path, parameters, name, found)?;
    nodes_times(alloc, owner, path, temporaries, name, found)
}

/// Appends the node for each time that it declares the name.
fn declarations_at(
    alloc: Global,
    owner: &Owner,
    placed: &PlacedNode<'_>,
    name: NameId,
    found: &mut Vec<Witness>,
) -> Result<(), Memory>
    ensures { (s : Slots) → OnOk result (shown s found.new.items ≡ shown s found.old.items ++ declared_at (owner_of s owner.now) name (placed.now.path, placed.now.node.now)) }
{
    let path = &placed.path;
    let node = placed.node;
    match &node.kind {
        NodeKind::Block { parameters, body } => {
            let temporaries = body.temporaries.as_slice();
            block_times(
                alloc,
                owner,
                path,
                parameters.as_slice(),
                temporaries,
                name,
                found,
            )
        }
        _ => Ok(()),
    }
}

/// Appends the blocks of a body that declare the name.
fn block_declarations(
    alloc: Global,
    image: &Image,
    owner: &Owner,
    body: &Sequence,
    name: NameId,
    found: &mut Vec<Witness>,
) -> Result<(), Memory>
    ensures { OnOk result (shown image.now found.new.items ≡ shown image.now found.old.items ++ flat_map (declared_at (owner_of image.now owner.now) name) (nodes (sequence_of body.now))) }
{
    let nodes = placed_nodes(alloc, body)?;
    for placed in nodes.as_slice() {
        declarations_at(alloc, owner, placed, name, found)?;
    }
    Ok(())
}

/// Appends the places that declare the name: the method, for each argument or temporary of its own, and blocks.
pub(crate) fn declarations(
    alloc: Global,
    image: &Image,
    method: &Held<'_>,
    name: NameId,
    found: &mut Vec<Witness>,
) -> Result<(), Memory>
    requires { IsHeld image.now method.now }
    ensures { OnOk result (shown image.now found.new.items ≡ shown image.now found.old.items ++ model.declarations (asked_by image.now.names) (held_as image.now.classes method.now) name) }
{
    let owner = Owner::Method(method.slot);
    let tree = method.tree;
    wholes(&owner, tree.arguments.as_slice(), name, found)?;
    wholes(&owner, tree.body.temporaries.as_slice(), name, found)?;
    block_declarations(alloc, image, &owner, &tree.body, name, found)
}

/// Appends them, if there is not just one.
pub(crate) fn further_declarations(
    alloc: Global,
    image: &Image,
    method: &Held<'_>,
    name: NameId,
    found: &mut Vec<Witness>,
) -> Result<(), Memory>
    requires { IsHeld image.now method.now }
    ensures { OnOk result (shown image.now found.new.items ≡ shown image.now found.old.items ++ model.further_declarations (asked_by image.now.names) (held_as image.now.classes method.now) name) }
{
    if declares_once(alloc, method.tree, name)? {
        return Ok(());
    }
    declarations(alloc, image, method, name, found)
}
