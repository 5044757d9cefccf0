// The names that the code at places mentions now.
ghost use Rattle.std.specs.Prelude.{◌≡◌, ◌≤◌, ◌+◌, ◌++◌, length, IfOk, OnOk};
ghost use Rattle.std.specs.List.{flat_map, filter_map};
ghost use Rattle.std.specs.List.Sorted.{IsStrictlyIncreasing};
ghost use Rattle.mentions.specs.Listing.{ListsOnce};
ghost use Rattle.reference_index.specs.Mentioned.{names_at};
ghost use Rattle.reference_index.specs.Fresh.{AreNamesAt, AllRise, IsOnce, places_of, gone, slot_in, number_in};

use crate::names::is_among;
use crate::rows::Rows;
use class_table::{Image, MethodSlot, Place};
use mentions::{doit_names, leave_once, method_names};
use rb_base::{Ids, Memory, Steps};
use std::alloc::Global;
use std::sync::ledger::Ledger;

/// A place and the names that its code mentions, each once.
#[derive(Drop)]
pub struct Fresh {
    pub place: Place,
    pub names: Ids,
}

/// Puts the slots of the methods among the places into one list, and the numbers of the do-its into the other.
fn sort_out(
    places: &[Place],
    slots: &mut Vec<usize>,
    numbers: &mut Vec<usize>,
) -> Result<(), Memory>
    ensures slots { OnOk result (slots.new.items ≡ slots.old.items ++ filter_map slot_in places.now) }
    ensures numbers { OnOk result (numbers.new.items ≡ numbers.old.items ++ filter_map number_in places.now) }
{
    for place in places {
        match place {
            Place::Method(slot) => slots.push(slot.0)?,
            Place::DoIt(number) => numbers.push(*number)?,
        }
    }
    Ok(())
}

/// The places, each once.
fn each_once(alloc: Global, places: &[Place]) -> Result<Vec<Place>, Memory>
    ensures { IfOk result (λ once. IsOnce places.now once.items) }
{
    let mut slots = Vec::new(alloc);
    let mut numbers = Vec::new(alloc);
    sort_out(places, &mut slots, &mut numbers)?;
    leave_once(&mut slots);
    leave_once(&mut numbers);
    let mut once = Vec::new(alloc);
    for slot in &slots {
        once.push(Place::Method(MethodSlot(*slot)))?;
    }
    for number in &numbers {
        once.push(Place::DoIt(*number))?;
    }
    Ok(once)
}

/// The names that the code at a place mentions, each once. Opens it.
fn names_in<L: Ledger>(
    alloc: Global,
    image: &Image,
    place: Place,
    steps: &mut Steps<L>,
) -> Result<Ids, Memory>
    ensures names { IfOk result (λ names. ListsOnce (names_at image.now place) names) }
    ensures step { steps.new ≡ steps.old + 1 }
{
    match place {
        Place::Method(slot) => match image.open_body(slot, steps) {
            Some(tree) => method_names(alloc, tree),
            None => Ok(Ids::new(alloc)),
        },
        Place::DoIt(number) => match image.open_doit(number, steps) {
            Some(body) => doit_names(alloc, body),
            None => Ok(Ids::new(alloc)),
        },
    }
}

/// The names that the code at these places mentions. Opens each of them once.
fn names_in_all<L: Ledger>(
    alloc: Global,
    image: &Image,
    places: &[Place],
    steps: &mut Steps<L>,
) -> Result<Vec<Fresh>, Memory>
    ensures places { IfOk result (λ fresh. places_of fresh.items ≡ places.now) }
    ensures names { IfOk result (λ fresh. AreNamesAt image.now fresh.items) }
    ensures steps { steps.new ≤ steps.old + length places.now }
{
    let mut fresh = Vec::new(alloc);
    for place in places {
        let names = names_in(alloc, image, *place, steps)?;
        fresh.push(Fresh {
            place: *place,
            names,
        })?;
    }
    Ok(fresh)
}

/// The names that the code at places mentions, of which some may be named twice. Opens each of them once.
pub fn fresh_names<L: Ledger>(
    alloc: Global,
    image: &Image,
    touched: &[Place],
    steps: &mut Steps<L>,
) -> Result<Vec<Fresh>, Memory>
    ensures places { IfOk result (λ fresh. IsOnce touched.now (places_of fresh.items)) }
    ensures names { IfOk result (λ fresh. AreNamesAt image.now fresh.items) }
    ensures steps { steps.new ≤ steps.old + length touched.now }
{
    let places = each_once(alloc, touched)?;
    names_in_all(alloc, image, &places, steps)
}

/// Puts the names at the end that the code at a place mentions no longer.
fn put_gone(rows: &Rows, fresh: &Fresh, numbers: &mut Vec<usize>) -> Result<(), Memory>
    requires { IsStrictlyIncreasing fresh.now.names }
    ensures { OnOk result (numbers.new.items ≡ numbers.old.items ++ gone rows.now fresh.now) }
{
    for name in rows.kept(fresh.place) {
        if !is_among(*name, fresh.names.as_slice()) {
            numbers.push(name.0)?;
        }
    }
    Ok(())
}

/// The names that the code at places mentions no longer, each once.
pub fn names_gone(alloc: Global, rows: &Rows, fresh: &[Fresh]) -> Result<Vec<usize>, Memory>
    requires { AllRise fresh.now }
    ensures { IfOk result (λ numbers. ListsOnce (flat_map (gone rows.now) fresh.now) numbers.items) }
{
    let mut numbers = Vec::new(alloc);
    for place in fresh {
        put_gone(rows, place, &mut numbers)?;
    }
    leave_once(&mut numbers);
    Ok(numbers)
}
