// The witnesses of the condition that a variable can come into a class.
ghost use Rattle.std.specs.Prelude.{◌≡◌, ◌++◌, Some, filter, flat_map, map, nat_eq, OnOk};
ghost use Rattle.image_model.specs.Chain.{chain};
ghost use Rattle.class_table.specs.Valid.{IsLive, IsOrderly};
ghost use Rattle.class_table.specs.View.{number_image};
ghost use Rattle.rename_model.specs.Conditions.{defines};
ghost use Rattle.class_questions.specs.LiveClasses.{is_live_that};
ghost use Rattle.hierarchy_questions.specs.Arrivals.{is_beside, is_defined_beside};
ghost use Rattle.refusal_witnesses.specs.ClassWitnesses.{hindrances};
ghost use Rattle.refusal_witnesses.specs.Witnesses.{a_class_of};
ghost use Rattle.witness_lists.specs.Classes.{class_found};
ghost use Rattle.witness_lists.specs.Views.{shown};
ghost use Rattle.class_witnesses.specs.Beside.{beside_found, slot_beside};

use class_questions::{Sought as Above, stands_above};
use class_table::{ClassId, Image, MethodSlot};
use hierarchy_questions::Arrival;
use rb_base::{Memory, NameId, Steps};
use std::alloc::Global;
use std::sync::ledger::Ledger;
use witness_lists::{Sought, Whose, Witness, defines_any, push_if, slot_witnesses};

/// Whether the class in a live slot is the class into which the variable comes or stands below it, and is looked at.
fn is_beside(image: &Image, id: ClassId, arrival: &Arrival<'_>) -> bool
    requires orderly { IsOrderly image.now }
    requires live { IsLive image.now.class_order id }
    ensures { result ≡ is_beside image.now arrival.now id }
{
    stands_above(image, id, &Above::Class(arrival.class))
        && !arrival
            .excepted
            .iter()
            .any(|other| stands_above(image, id, &Above::Class(*other)))
}

/// Appends the classes of the chain of a class that define the variable, from the class up.
fn definers_above(
    image: &Image,
    class: NameId,
    variable: NameId,
    found: &mut Vec<Witness>,
) -> Result<(), Memory>
    requires { IsOrderly image.now }
    ensures { OnOk result (shown image.now found.new.items ≡ shown image.now found.old.items ++ map a_class_of (filter (defines nat_eq variable) (chain nat_eq (number_image image.now).classes (Some class)))) }
{
    let mut at = image.class_named(class);
    let mut left = image.classes().len();
    while left > 0 {
        let Some(id) = at else {
            return Ok(());
        };
        let Some(rec) = image.class_rec(id) else {
            return Ok(());
        };
        push_if(defines_any(rec, variable), Witness::Class(rec.name), found)?;
        at = rec.superclass;
        left -= 1;
    }
    Ok(())
}

/// Whether the class in a slot, if it is live, is looked at and defines the variable.
fn is_definer(image: &Image, id: ClassId, arrival: &Arrival<'_>) -> bool
    requires { IsOrderly image.now }
    ensures { result ≡ is_live_that (is_defined_beside image.now arrival.now) image.now id }
{
    match image.class_rec(id) {
        None => false,
        Some(rec) => defines_any(rec, arrival.variable) && is_beside(image, id, arrival),
    }
}

/// Appends the class in a slot, if it is live, is looked at and defines the variable.
fn definer_beside(
    image: &Image,
    id: ClassId,
    arrival: &Arrival<'_>,
    found: &mut Vec<Witness>,
) -> Result<(), Memory>
    requires { IsOrderly image.now }
    ensures { OnOk result (shown image.now found.new.items ≡ shown image.now found.old.items ++ class_found (is_defined_beside image.now arrival.now) image.now id) }
{
    match image.class_rec(id) {
        None => Ok(()),
        Some(rec) => {
            let is_definer = is_definer(image, id, arrival);
            push_if(is_definer, Witness::Class(rec.name), found)
        }
    }
}

/// Appends the classes that are looked at and define the variable, in their order.
fn definers_beside(
    image: &Image,
    arrival: &Arrival<'_>,
    found: &mut Vec<Witness>,
) -> Result<(), Memory>
    requires { IsOrderly image.now }
    ensures { OnOk result (shown image.now found.new.items ≡ shown image.now found.old.items ++ map a_class_of (filter (is_defined_beside image.now arrival.now) (number_image image.now).classes)) }
{
    for id in image.classes() {
        definer_beside(image, *id, arrival, found)?;
    }
    Ok(())
}

/// Appends what names the variable in the method of a live slot, if its class is looked at.
fn namings_in_slot<L: Ledger>(
    alloc: Global,
    image: &Image,
    slot: MethodSlot,
    arrival: &Arrival<'_>,
    found: &mut Vec<Witness>,
    steps: &mut Steps<L>,
) -> Result<(), Memory>
    requires { IsOrderly image.now }
    ensures { OnOk result (shown image.now found.new.items ≡ shown image.now found.old.items ++ slot_beside image.now arrival.now slot) }
{
    let Some(info) = image.method_info(slot) else {
        return Ok(());
    };
    if !is_beside(image, info.class, arrival) {
        return Ok(());
    }
    let sought = Sought::Name(arrival.variable);
    slot_witnesses(alloc, image, Whose::Everyone, &sought, slot, found, steps)
}

/// Appends what names the variable in the methods of the classes that are looked at, in the order of methods.
fn namings_beside<L: Ledger>(
    alloc: Global,
    image: &Image,
    arrival: &Arrival<'_>,
    found: &mut Vec<Witness>,
    steps: &mut Steps<L>,
) -> Result<(), Memory>
    requires { IsOrderly image.now }
    ensures { OnOk result (shown image.now found.new.items ≡ shown image.now found.old.items ++ flat_map (beside_found (number_image image.now) arrival.now) (number_image image.now).methods) }
{
    for slot in image.methods() {
        namings_in_slot(alloc, image, *slot, arrival, found, steps)?;
    }
    Ok(())
}

/// Appends the classes above and below the class that define the variable, and what names it in the methods of the class and
/// of those below it. The classes that lose the variable and those below them are not looked at.
pub fn hindrances<L: Ledger>(
    alloc: Global,
    image: &Image,
    arrival: &Arrival<'_>,
    found: &mut Vec<Witness>,
    steps: &mut Steps<L>,
) -> Result<(), Memory>
    requires { IsOrderly image.now }
    ensures { OnOk result (shown image.now found.new.items ≡ shown image.now found.old.items ++ hindrances nat_eq (number_image image.now) arrival.now.excepted.now arrival.now.class arrival.now.variable) }
{
    definers_above(image, arrival.class, arrival.variable, found)?;
    definers_beside(image, arrival, found)?;
    namings_beside(alloc, image, arrival, found, steps)
}
