// The names that are kept of each place.
ghost use Rattle.std.specs.Prelude.{◌≡◌, ◌≤◌, ◌<◌, ◌⊎◌, ℕ, [], ◌∷◌, length, take, nat_eq, if◌then◌else◌, All, OnOk, OnErr};
ghost use Rattle.std.specs.List.Sorted.{IsStrictlyIncreasing};
ghost use Rattle.class_table.specs.declared.record.Place.{Place};
ghost use Rattle.reference_index.specs.declared.fresh.Fresh.{Fresh};
ghost use Rattle.reference_index.specs.Mentioned.{kept_of, same_place};
ghost use Rattle.reference_index.specs.Rows.{row_of, mentions, HasRow, Fits};
ghost use Rattle.reference_index.specs.Fresh.{AllRise, kept_after};

use crate::fresh::Fresh;
use crate::names::is_among;
use class_table::Place;
use rb_base::{Ids, Memory, NameId};
use std::alloc::Global;
use std::marker::Model;

/// The names that are kept of each slot of a method and of each do-it. The names of each place rise.
#[derive(Drop)]
pub struct Rows {
    methods: Vec<Ids>,
    doits: Vec<Ids>,
}

impl Model for Rows {
    ghost use Rattle.reference_index.specs.Mentioned.{Mentioned};

    ghost Value = { Mentioned };

    ghost view = { λ a. record { methods = a.methods.items; doits = a.doits.items } };

    ghost use Rattle.reference_index.specs.Rows.{EachRises};

    ghost invariant = { λ a. EachRises (record { methods = a.methods.items; doits = a.doits.items }) };
}

/// The row of a number, which is empty past the end.
fn row(rows: &[Ids], at: usize) -> &[NameId]
    ensures { result.now ≡ row_of rows.now at }
{
    match rows.get(at) {
        Some(names) => names.as_slice(),
        None => &[],
    }
}

/// Makes empty rows up to that of a number.
fn lengthen(alloc: Global, rows: &mut Vec<Ids>, at: usize) -> Result<(), Memory>
    ensures there { OnOk result (at < length rows.new.items) }
    ensures same { (k : ℕ) → row_of rows.new.items k ≡ row_of rows.old.items k }
    ensures longer { length rows.old.items ≤ length rows.new.items }
    ensures front { take (length rows.old.items) rows.new.items ≡ rows.old.items }
{
    while rows.len() <= at {
        rows.push(Ids::new(alloc))?;
    }
    Ok(())
}

/// Puts the names into the row of a number, if there is one.
fn set_row(rows: &mut Vec<Ids>, at: usize, names: Ids)
    requires { 0 < length names → at < length rows.old.items }
    ensures rows { (k : ℕ) → row_of rows.new.items k ≡ (if nat_eq at k then names else row_of rows.old.items k) }
    ensures length { length rows.new.items ≡ length rows.old.items }
{
    if at < rows.len() {
        rows[at] = names;
    }
}

impl Rows {
    /// No rows, which takes no memory.
    pub fn new(alloc: Global) -> Rows
        ensures { result ≡ record { methods = []; doits = [] } }
    {
        Rows {
            methods: Vec::new(alloc),
            doits: Vec::new(alloc),
        }
    }

    /// The names that are kept of a place.
    pub fn kept(&self, place: Place) -> &[NameId]
        ensures names { result.now ≡ kept_of self.now place }
        ensures rise { IsStrictlyIncreasing result.now }
    {
        match place {
            Place::Method(slot) => row(&self.methods, slot.0),
            Place::DoIt(number) => row(&self.doits, number),
        }
    }

    /// Whether a name is among those that are kept of a place.
    pub fn mentions(&self, name: NameId, place: Place) -> bool
        ensures { result ≡ mentions self.now name place }
    {
        is_among(name, self.kept(place))
    }

    /// Makes empty rows up to that of a place.
    fn reach(&mut self, alloc: Global, place: Place) -> Result<(), Memory>
        ensures there { OnOk result (HasRow self.new place) }
        ensures same { (p : Place) → kept_of self.new p ≡ kept_of self.old p }
        ensures more_methods { length self.old.methods ≤ length self.new.methods }
        ensures more_doits { length self.old.doits ≤ length self.new.doits }
        ensures methods { take (length self.old.methods) self.new.methods ≡ self.old.methods }
        ensures doits { take (length self.old.doits) self.new.doits ≡ self.old.doits }
    {
        match place {
            Place::Method(slot) => lengthen(alloc, &mut self.methods, slot.0),
            Place::DoIt(number) => lengthen(alloc, &mut self.doits, number),
        }
    }

    /// Keeps the names of a place, in place of those before.
    fn set(&mut self, place: Place, names: Ids)
        requires fits { Fits self.old place names }
        requires rise { IsStrictlyIncreasing names }
        ensures kept { (p : Place) → kept_of self.new p ≡ (if same_place place p then names else kept_of self.old p) }
        ensures methods { length self.new.methods ≡ length self.old.methods }
        ensures doits { length self.new.doits ≡ length self.old.doits }
    {
        match place {
            Place::Method(slot) => set_row(&mut self.methods, slot.0, names),
            Place::DoIt(number) => set_row(&mut self.doits, number, names),
        }
    }

    /// Makes empty rows up to those of places with names. On want of memory some are made.
    fn reach_each(&mut self, alloc: Global, fresh: &[Fresh]) -> Result<(), Memory>
        ensures fits { OnOk result (All (λ (f : Fresh). Fits self.new f.place f.names) fresh.now) }
        ensures same { (p : Place) → kept_of self.new p ≡ kept_of self.old p }
        ensures methods { take (length self.old.methods) self.new.methods ≡ self.old.methods }
        ensures doits { take (length self.old.doits) self.new.doits ≡ self.old.doits }
    {
        for place in fresh {
            if !place.names.is_empty() {
                self.reach(alloc, place.place)?;
            }
        }
        Ok(())
    }

    /// Makes empty rows up to those of places with names.
    pub fn reach_all(&mut self, alloc: Global, fresh: &[Fresh]) -> Result<(), Memory>
        ensures fits { OnOk result (All (λ (f : Fresh). Fits self.new f.place f.names) fresh.now) }
        ensures same { (p : Place) → kept_of self.new p ≡ kept_of self.old p }
        ensures err { OnErr result (self.new ≡ self.old) }
    {
        let methods = self.methods.len();
        let doits = self.doits.len();
        let reached = self.reach_each(alloc, fresh);
        if reached.is_err() {
            self.methods.truncate(methods);
            self.doits.truncate(doits);
        }
        reached
    }

    /// Keeps the names of places, in place of those before.
    pub fn set_all(&mut self, mut fresh: Vec<Fresh>)
        requires fits { All (λ (f : Fresh). Fits self.old f.place f.names) fresh.items }
        requires rise { AllRise fresh.items }
        ensures { (p : Place) → kept_of self.new p ≡ kept_after self.old fresh.items p }
    {
        while let Some(Fresh { place, names }) = fresh.pop() {
            self.set(place, names);
        }
    }
}
