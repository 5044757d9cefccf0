// The names of a method that mean another thing in another class.
ghost use Rattle.std.specs.Prelude.{◌≡◌, ◌++◌, OnOk, flat_map, nat_eq, true};
ghost use Rattle.image_model.specs.Uses.{name_used};
ghost use Rattle.image_model.specs.Words.{number_words};
ghost use Rattle.tree_model.specs.Nodes.{nodes};
ghost use Rattle.st_tree.specs.View.{method_of};
ghost use Rattle.class_table.specs.Valid.{IsLive, IsOrderly};
ghost use Rattle.class_table.specs.View.{number_image};
ghost use Rattle.commands.specs.Views.{asked_by};
ghost use Rattle.command_model.specs.Hierarchy.{is_class};
ghost use Rattle.command_model.specs.SameMethods.{same_meaning};
ghost use Rattle.name_meanings.specs.Meanings.{meaning_of};
ghost use Rattle.refusal_witnesses.specs.MethodWitnesses.{other_meanings};
ghost use Rattle.witness_lists.specs.Views.{shown};
ghost use Rattle.method_witnesses.specs.Moved.{difference_at, difference_of};

use class_table::{ClassId, Image, MethodInfo, MethodSlot};
use commands::MethodName;
use hierarchy_questions::own_method;
use name_meanings::{Meaning, method_meaning};
use placed_nodes::{PlacedNode, placed_nodes};
use rb_base::{Memory, NameId, Steps};
use st_tree::{Method, Node, NodeKind, Path};
use std::alloc::Global;
use std::sync::ledger::Ledger;
use witness_lists::{Owner, Witness};

/// A method of a slot, as one of another class.
#[derive(Clone, Copy)]
struct Moved<'a> {
    slot: MethodSlot,
    /// The class of which it is.
    class: ClassId,
    /// Whether it is a method of the class side.
    meta: bool,
    tree: &'a Method,
    /// The other class.
    to: ClassId,
}

/// Whether two meanings are one.
fn same_meaning(meaning: Meaning, other: Meaning) -> bool
    ensures { result ≡ same_meaning nat_eq (meaning_of meaning) (meaning_of other) }
{
    meaning == other
}

/// The name that the node reads or assigns.
pub fn name_used(node: &Node) -> Option<NameId>
    ensures { result ≡ name_used node.now }
{
    match &node.kind {
        NodeKind::Var { name } | NodeKind::Assign { name, .. } => Some(*name),
        _ => None,
    }
}

/// Appends the name at a place of the method with its two meanings, if these are not one.
fn push_difference(
    alloc: Global,
    image: &Image,
    moved: &Moved<'_>,
    path: &Path,
    name: NameId,
    found: &mut Vec<Witness>,
) -> Result<(), Memory>
    requires orderly { IsOrderly image.now }
    requires live { IsLive image.now.class_order moved.now.class }
    requires other_live { IsLive image.now.class_order moved.now.to }
    ensures { OnOk result (shown image.now found.new.items ≡ shown image.now found.old.items ++ difference_of image.now moved.now path.now name) }
{
    let one = method_meaning(image, moved.class, moved.meta, moved.tree, path, name);
    let other = method_meaning(image, moved.to, moved.meta, moved.tree, path, name);
    if same_meaning(one, other) {
        return Ok(());
    }
    found.push(Witness::Meanings {
        owner: Owner::Method(moved.slot),
        path: path.try_copy(alloc)?,
        name,
        one,
        other,
    })?;
    Ok(())
}

/// The same of the name that a node uses, if it uses one.
fn push_node_difference(
    alloc: Global,
    image: &Image,
    moved: &Moved<'_>,
    placed: &PlacedNode<'_>,
    found: &mut Vec<Witness>,
) -> Result<(), Memory>
    requires orderly { IsOrderly image.now }
    requires live { IsLive image.now.class_order moved.now.class }
    requires other_live { IsLive image.now.class_order moved.now.to }
    ensures { OnOk result (shown image.now found.new.items ≡ shown image.now found.old.items ++ difference_at image.now moved.now (placed.now.path, placed.now.node.now)) }
{
    match name_used(placed.node) {
        None => Ok(()),
        Some(name) => push_difference(alloc, image, moved, &placed.path, name, found),
    }
}

/// Appends the names of the method that mean another thing in the other class.
fn differences(
    alloc: Global,
    image: &Image,
    moved: &Moved<'_>,
    found: &mut Vec<Witness>,
) -> Result<(), Memory>
    requires orderly { IsOrderly image.now }
    requires live { IsLive image.now.class_order moved.now.class }
    requires other_live { IsLive image.now.class_order moved.now.to }
    ensures { OnOk result (shown image.now found.new.items ≡ shown image.now found.old.items ++ flat_map (difference_at image.now moved.now) (nodes (method_of moved.now.tree.now).body)) }
{
    let nodes = placed_nodes(alloc, &moved.tree.body)?;
    for placed in nodes.as_slice() {
        push_node_difference(alloc, image, moved, placed, found)?;
    }
    Ok(())
}

/// Appends the names of the method that mean another thing in the class `to`, if there is such a class.
pub fn other_meanings<L: Ledger>(
    alloc: Global,
    image: &Image,
    method: MethodName,
    to: NameId,
    found: &mut Vec<Witness>,
    steps: &mut Steps<L>,
) -> Result<(), Memory>
    requires { IsOrderly image.now }
    ensures { is_class nat_eq (number_image image.now) to ≡ true → OnOk result (shown image.now found.new.items ≡ shown image.now found.old.items ++ other_meanings (number_words image.now.names) (asked_by image.now.names).is_super (number_image image.now) method.class method.meta method.selector to) }
{
    let Some(to) = image.class_named(to) else {
        return Ok(());
    };
    let Some(slot) = own_method(image, method) else {
        return Ok(());
    };
    let Some(info) = image.method_info(slot) else {
        return Ok(());
    };
    let Some(tree) = image.open_body(slot, steps) else {
        return Ok(());
    };
    let moved = Moved {
        slot,
        class: info.class,
        meta: info.meta,
        tree,
        to,
    };
    differences(alloc, image, &moved, found)
}
