// The lists of places of each name.
ghost use Rattle.std.specs.Prelude.{◌≡◌, ℕ, [], ◌∷◌, ◌++◌, filter, nat_eq, if◌then◌else◌, OnOk, OnErr};
ghost use Rattle.std.specs.List.{list_any, flat_map};
ghost use Rattle.std.specs.List.Sorted.{IsStrictlyIncreasing};
ghost use Rattle.reference_index.specs.Rows.{mentions};
ghost use Rattle.reference_index.specs.Fresh.{comes, AllRise};
ghost use Rattle.reference_index.specs.Lists.{list_of, SameMentioning};

use crate::fresh::Fresh;
use crate::rows::Rows;
use class_table::Place;
use rb_base::{Memory, NameId};
use std::alloc::Global;
use std::marker::Model;

/// The places whose code mentions one name, in no order. Contracts see the list.
#[derive(Drop)]
pub struct Places {
    items: Vec<Place>,
}

impl Model for Places {
    ghost use Rattle.std.specs.Prelude.{List};
    ghost use Rattle.class_table.specs.declared.record.Place.{Place};

    ghost Value = { List Place };

    ghost view = { λ a. a.items.items };
}

impl Places {
    fn new(alloc: Global) -> Places
        ensures { result ≡ [] }
    {
        Places {
            items: Vec::new(alloc),
        }
    }

    fn as_slice(&self) -> &[Place]
        ensures { result.now ≡ self.now }
    {
        &self.items
    }

    fn push(&mut self, place: Place) -> Result<(), Memory>
        ensures ok { OnOk result (self.new ≡ self.old ++ place ∷ []) }
        ensures err { OnErr result (self.new ≡ self.old) }
    {
        self.items.push(place)?;
        Ok(())
    }

    /// Leaves the places of which the name is kept.
    fn retain(&mut self, rows: &Rows, name: NameId)
        ensures { self.new ≡ filter (mentions rows.now name) self.old }
    {
        self.items.retain(|place| rows.mentions(name, *place));
    }
}

/// The places in the list of a name.
pub fn list(lists: &[Places], name: NameId) -> &[Place]
    ensures { result.now ≡ list_of lists.now name }
{
    match lists.get(name.0) {
        Some(places) => places.as_slice(),
        None => &[],
    }
}

/// Puts a place at the end of the list of a name.
fn put(alloc: Global, lists: &mut Vec<Places>, name: NameId, place: Place) -> Result<(), Memory>
    ensures ok { OnOk result ((n : ℕ) → list_of lists.new.items n ≡ list_of lists.old.items n ++ (if nat_eq n name then place ∷ [] else [])) }
    ensures err { OnErr result ((n : ℕ) → list_of lists.new.items n ≡ list_of lists.old.items n) }
{
    while lists.len() <= name.0 {
        lists.push(Places::new(alloc))?;
    }
    lists[name.0].push(place)
}

/// Puts the place into the list of each name that it comes to mention.
fn enter(alloc: Global, lists: &mut Vec<Places>, rows: &Rows, fresh: &Fresh) -> Result<(), Memory>
    requires { IsStrictlyIncreasing fresh.now.names }
    ensures ok { OnOk result ((n : ℕ) → list_of lists.new.items n ≡ list_of lists.old.items n ++ comes rows.now n fresh.now) }
    ensures same { SameMentioning rows.now lists.old.items lists.new.items }
{
    for name in fresh.names.as_slice() {
        if !rows.mentions(*name, fresh.place) {
            put(alloc, lists, *name, fresh.place)?;
        }
    }
    Ok(())
}

/// The same for places in order.
pub fn enter_all(
    alloc: Global,
    lists: &mut Vec<Places>,
    rows: &Rows,
    fresh: &[Fresh],
) -> Result<(), Memory>
    requires { AllRise fresh.now }
    ensures ok { OnOk result ((n : ℕ) → list_of lists.new.items n ≡ list_of lists.old.items n ++ flat_map (comes rows.now n) fresh.now) }
    ensures same { SameMentioning rows.now lists.old.items lists.new.items }
{
    for place in fresh {
        enter(alloc, lists, rows, place)?;
    }
    Ok(())
}

/// Leaves in the list of a name the places of which it is kept.
fn settle(lists: &mut Vec<Places>, rows: &Rows, name: NameId)
    ensures { (n : ℕ) → list_of lists.new.items n ≡ (if nat_eq n name then filter (mentions rows.now n) (list_of lists.old.items n) else list_of lists.old.items n) }
{
    if name.0 < lists.len() {
        lists[name.0].retain(rows, name);
    }
}

/// The same for the lists of names.
pub fn settle_each(lists: &mut Vec<Places>, rows: &Rows, names: &[usize])
    ensures { (n : ℕ) → list_of lists.new.items n ≡ (if list_any (nat_eq n) names.now then filter (mentions rows.now n) (list_of lists.old.items n) else list_of lists.old.items n) }
{
    for name in names {
        settle(lists, rows, NameId(*name));
    }
}

/// The same for all lists.
pub fn settle_all(lists: &mut Vec<Places>, rows: &Rows)
    ensures { (n : ℕ) → list_of lists.new.items n ≡ filter (mentions rows.now n) (list_of lists.old.items n) }
{
    for name in 0..lists.len() {
        settle(lists, rows, NameId(name));
    }
}
