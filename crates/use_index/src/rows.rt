// The uses that are kept of each place.
ghost use Rattle.std.specs.Prelude.{◌≡◌, ◌≤◌, ◌<◌, ℕ, [], length, take, nat_eq, if◌then◌else◌, OnOk, OnErr};
ghost use Rattle.class_table.specs.declared.record.Place.{Place};
ghost use Rattle.reference_index.specs.Mentioned.{same_place};
ghost use Rattle.use_index.specs.Fresh.{HaveRows, used_after};
ghost use Rattle.use_index.specs.Rows.{row_of, used_of, HasRow};

use crate::fresh::FreshUses;
use crate::uses::{UseAt, Uses};
use class_table::Place;
use rb_base::Memory;
use std::alloc::Global;
use std::marker::Model;

/// The uses that are kept of each slot of a method and of each do-it.
#[derive(Drop)]
pub struct UseRows {
    methods: Vec<Uses>,
    doits: Vec<Uses>,
}

impl Model for UseRows {
    ghost use Rattle.use_index.specs.Rows.{Used};

    ghost Value = { Used };

    ghost view = { λ a. record { methods = a.methods.items; doits = a.doits.items } };
}

/// The row of a number, which is empty past the end.
fn row(rows: &[Uses], at: usize) -> &[UseAt]
    ensures { result.now ≡ row_of rows.now at }
{
    match rows.get(at) {
        Some(uses) => uses.as_slice(),
        None => &[],
    }
}

/// Makes empty rows up to that of a number.
fn lengthen(alloc: Global, rows: &mut Vec<Uses>, at: usize) -> Result<(), Memory>
    ensures there { OnOk result (at < length rows.new.items) }
    ensures same { (k : ℕ) → row_of rows.new.items k ≡ row_of rows.old.items k }
    ensures longer { length rows.old.items ≤ length rows.new.items }
    ensures front { take (length rows.old.items) rows.new.items ≡ rows.old.items }
{
    while rows.len() <= at {
        rows.push(Uses::new(alloc))?;
    }
    Ok(())
}

/// Puts the uses into the row of a number.
fn set_row(rows: &mut Vec<Uses>, at: usize, uses: Uses)
    requires { at < length rows.old.items }
    ensures rows { (k : ℕ) → row_of rows.new.items k ≡ (if nat_eq at k then uses else row_of rows.old.items k) }
    ensures length { length rows.new.items ≡ length rows.old.items }
{
    rows[at] = uses;
}

impl UseRows {
    /// No rows, which takes no memory.
    pub fn new(alloc: Global) -> UseRows
        ensures { result ≡ record { methods = []; doits = [] } }
    {
        UseRows {
            methods: Vec::new(alloc),
            doits: Vec::new(alloc),
        }
    }

    /// The uses that are kept of a place.
    pub fn used(&self, place: Place) -> &[UseAt]
        ensures { result.now ≡ used_of self.now place }
    {
        match place {
            Place::Method(slot) => row(&self.methods, slot.0),
            Place::DoIt(number) => row(&self.doits, number),
        }
    }

    /// How many rows of methods there are.
    pub fn methods(&self) -> usize
        ensures { result ≡ length self.now.methods }
    {
        self.methods.len()
    }

    /// How many rows of do-its there are.
    pub fn doits(&self) -> usize
        ensures { result ≡ length self.now.doits }
    {
        self.doits.len()
    }

    /// Leaves so many rows of methods and of do-its.
    pub fn cut(&mut self, methods: usize, doits: usize)
        ensures methods { self.new.methods ≡ take methods self.old.methods }
        ensures doits { self.new.doits ≡ take doits self.old.doits }
    {
        self.methods.truncate(methods);
        self.doits.truncate(doits);
    }

    /// Makes empty rows up to that of a place.
    fn reach(&mut self, alloc: Global, place: Place) -> Result<(), Memory>
        ensures there { OnOk result (HasRow self.new place) }
        ensures same { (p : Place) → used_of self.new p ≡ used_of self.old p }
        ensures more_methods { length self.old.methods ≤ length self.new.methods }
        ensures more_doits { length self.old.doits ≤ length self.new.doits }
        ensures methods { take (length self.old.methods) self.new.methods ≡ self.old.methods }
        ensures doits { take (length self.old.doits) self.new.doits ≡ self.old.doits }
    {
        match place {
            Place::Method(slot) => lengthen(alloc, &mut self.methods, slot.0),
            Place::DoIt(number) => lengthen(alloc, &mut self.doits, number),
        }
    }

    /// Keeps the uses of a place, in place of those before.
    fn set(&mut self, place: Place, uses: Uses)
        requires { HasRow self.old place }
        ensures used { (p : Place) → used_of self.new p ≡ (if same_place place p then uses else used_of self.old p) }
        ensures methods { length self.new.methods ≡ length self.old.methods }
        ensures doits { length self.new.doits ≡ length self.old.doits }
    {
        match place {
            Place::Method(slot) => set_row(&mut self.methods, slot.0, uses),
            Place::DoIt(number) => set_row(&mut self.doits, number, uses),
        }
    }

    /// Makes empty rows up to those of places. On want of memory some are made.
    fn reach_each(&mut self, alloc: Global, fresh: &[FreshUses]) -> Result<(), Memory>
        ensures there { OnOk result (HaveRows self.new fresh.now) }
        ensures same { (p : Place) → used_of self.new p ≡ used_of self.old p }
        ensures methods { take (length self.old.methods) self.new.methods ≡ self.old.methods }
        ensures doits { take (length self.old.doits) self.new.doits ≡ self.old.doits }
    {
        for place in fresh {
            self.reach(alloc, place.place)?;
        }
        Ok(())
    }

    /// Makes empty rows up to those of places.
    pub fn reach_all(&mut self, alloc: Global, fresh: &[FreshUses]) -> Result<(), Memory>
        ensures there { OnOk result (HaveRows self.new fresh.now) }
        ensures same { (p : Place) → used_of self.new p ≡ used_of self.old p }
        ensures methods { OnOk result (take (length self.old.methods) self.new.methods ≡ self.old.methods) }
        ensures doits { OnOk result (take (length self.old.doits) self.new.doits ≡ self.old.doits) }
        ensures err { OnErr result (self.new ≡ self.old) }
    {
        let methods = self.methods.len();
        let doits = self.doits.len();
        let reached = self.reach_each(alloc, fresh);
        if reached.is_err() {
            self.methods.truncate(methods);
            self.doits.truncate(doits);
        }
        reached
    }

    /// Keeps the uses of places, in place of those before.
    pub fn set_all(&mut self, mut fresh: Vec<FreshUses>)
        requires { HaveRows self.old fresh.items }
        ensures { (p : Place) → used_of self.new p ≡ used_after self.old fresh.items p }
    {
        while let Some(FreshUses { place, uses }) = fresh.pop() {
            self.set(place, uses);
        }
    }
}
