// Whether a variable can come up into a class.
ghost use Rattle.std.specs.Prelude.{◌≡◌, ℕ, ◌&&◌, ◌||◌, false, nat_eq, IfOk};
ghost use Rattle.std.specs.List.{list_any};
ghost use Rattle.image_model.specs.Image.{EntryOf, DoItOf};
ghost use Rattle.st_tree.specs.View.{method_of};
ghost use Rattle.class_table.specs.declared.record.Place.TheVariants as place;
ghost use Rattle.class_table.specs.Valid.{IsLive, IsOrderly};
ghost use Rattle.class_table.specs.View.{number_image};
ghost use Rattle.rename_model.specs.NamesThere.{is_named_by};
ghost use Rattle.command_model.specs.Hierarchy as hierarchy;
ghost use Rattle.command_model.specs.VariableConditions.{is_free_beside};
ghost use Rattle.class_questions.specs.LiveClasses.{is_live_that};
ghost use Rattle.reference_index.specs.Mentioned.{IsIndexOf};
ghost use Rattle.hierarchy_questions.specs.Arrivals.{is_beside, is_in_tree, is_defined_beside, is_place_named};

use class_questions::{Sought, is_class, is_defined_above, stands_above};
use class_table::{ClassId, ClassRec, Image, MethodSlot, Place};
use mentions::nodes_of;
use name_meanings::is_among;
use node_questions::uses;
use rb_base::{Memory, NameId, Steps};
use reference_index::Index;
use st_tree::{Method, Node, NodeKind};
use std::alloc::Global;
use std::sync::ledger::Ledger;

/// A variable that comes into a class.
#[derive(Clone, Copy, Debug)]
pub struct Arrival<'a> {
    /// The class into which it comes.
    pub class: NameId,
    pub variable: NameId,
    /// The classes that lose it. Neither they nor the classes below them are looked at.
    pub excepted: &'a [NameId],
}

/// Whether the class in a live slot is the class into which the variable comes or stands below it, and is looked at.
fn is_beside(image: &Image, id: ClassId, arrival: &Arrival<'_>) -> bool
    requires orderly { IsOrderly image.now }
    requires live { IsLive image.now.class_order id }
    ensures { result ≡ is_beside image.now arrival.now id }
{
    stands_above(image, id, &Sought::Class(arrival.class))
        && !arrival
            .excepted
            .iter()
            .any(|other| stands_above(image, id, &Sought::Class(*other)))
}

/// Whether the class itself defines a variable of any kind by the name.
fn defines_any(rec: &ClassRec, variable: NameId) -> bool
    ensures { result ≡ (list_any (nat_eq variable) rec.now.instance || (list_any (nat_eq variable) rec.now.shared || list_any (nat_eq variable) rec.now.class_side)) }
{
    is_among(rec.instance.as_slice(), variable)
        || (is_among(rec.shared.as_slice(), variable)
            || is_among(rec.class_side.as_slice(), variable))
}

/// Whether the class in a slot, if it is live, is one of those and defines a variable of any kind by the name.
fn is_defined_beside(image: &Image, id: ClassId, arrival: &Arrival<'_>) -> bool
    requires { IsOrderly image.now }
    ensures { result ≡ is_live_that (is_defined_beside image.now arrival.now) image.now id }
{
    match image.class_rec(id) {
        None => false,
        Some(rec) => defines_any(rec, arrival.variable) && is_beside(image, id, arrival),
    }
}

/// Whether the node reads, assigns or declares the name.
fn is_named_by(node: &Node, name: NameId) -> bool
    ensures { result ≡ is_named_by nat_eq name node.now }
{
    match &node.kind {
        NodeKind::Block { parameters, body } => {
            is_among(parameters.as_slice(), name) || is_among(body.temporaries.as_slice(), name)
        }
        _ => uses(node, name),
    }
}

/// Whether the method reads, assigns or declares the name.
fn is_named_in(alloc: Global, tree: &Method, name: NameId) -> Result<bool, Memory>
    ensures { IfOk result (λ is. is ≡ is_in_tree name (method_of tree.now)) }
{
    if is_among(tree.arguments.as_slice(), name)
        || is_among(tree.body.temporaries.as_slice(), name)
    {
        return Ok(true);
    }
    let nodes = nodes_of(alloc, &tree.body)?;
    Ok(nodes.iter().any(|node| is_named_by(*node, name)))
}

/// Whether the method in a slot, if it is live and one of a class that is looked at, reads, assigns or declares the name.
fn is_slot_named<L: Ledger>(
    alloc: Global,
    image: &Image,
    slot: MethodSlot,
    arrival: &Arrival<'_>,
    steps: &mut Steps<L>,
) -> Result<bool, Memory>
    requires { IsOrderly image.now }
    ensures { IfOk result (λ is. is ≡ is_place_named image.now arrival.now (place.Method slot)) }
{
    let Some(info) = image.method_info(slot) else {
        return Ok(false);
    };
    if !is_beside(image, info.class, arrival) {
        return Ok(false);
    }
    match image.open_body(slot, steps) {
        None => Ok(false),
        Some(tree) => is_named_in(alloc, tree, arrival.variable),
    }
}

/// Whether such a method stands at one of the places.
fn is_named_beside<L: Ledger>(
    alloc: Global,
    image: &Image,
    places: &[Place],
    arrival: &Arrival<'_>,
    steps: &mut Steps<L>,
) -> Result<bool, Memory>
    requires { IsOrderly image.now }
    ensures { IfOk result (λ is. is ≡ list_any (is_place_named image.now arrival.now) places.now) }
{
    for place in places {
        if let Place::Method(slot) = place {
            if is_slot_named(alloc, image, *slot, arrival, steps)? {
                return Ok(true);
            }
        }
    }
    Ok(false)
}

/// Whether the class is there, and the variable can come into it: no class of its chain defines it, and of the classes below
/// it, itself among them, none that is looked at defines it, and no method of theirs reads, assigns or declares the name.
/// Opens only code that mentions the name.
pub fn may_come_up<L: Ledger>(
    alloc: Global,
    image: &Image,
    index: &Index,
    arrival: &Arrival<'_>,
    steps: &mut Steps<L>,
) -> Result<bool, Memory>
    requires orderly { IsOrderly image.now }
    requires index { IsIndexOf image.now index.now }
    ensures { IfOk result (λ is. is ≡ (hierarchy.is_class nat_eq (number_image image.now) arrival.now.class && is_free_beside nat_eq (number_image image.now) arrival.now.excepted.now arrival.now.class arrival.now.variable)) }
{
    if !is_class(image, arrival.class)
        || is_defined_above(image, arrival.class, arrival.variable)
        || image
            .classes()
            .iter()
            .any(|id| is_defined_beside(image, *id, arrival))
    {
        return Ok(false);
    }
    let places = index.listed(arrival.variable);
    let named = is_named_beside(alloc, image, places, arrival, steps)?;
    Ok(!named)
}
