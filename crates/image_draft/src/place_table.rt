// Places by the numbers of names.
ghost use Rattle.std.specs.Prelude.{◌≡◌, ℕ, ◌<◌, [], None, Some, cond, length, nat_eq, OnOk};
ghost use Rattle.image_draft.specs.Table.{place_at, place_before, IsNoted};

use rb_base::{Memory, NameId};
use std::alloc::Global;
use std::marker::Model;

/// The places of names: at the number of a name stands its place, if it has one. Contracts see the list.
#[derive(Drop)]
pub struct PlaceTable {
    places: Vec<Option<usize>>,
}

impl Model for PlaceTable {
    ghost use Rattle.std.specs.Prelude.{ℕ, List, Option};

    ghost Value = { List (Option ℕ) };

    ghost view = { λ a. a.places.items };
}

impl PlaceTable {
    /// A table in which no name has a place, which takes no memory.
    pub fn new(alloc: Global) -> PlaceTable
        ensures { result ≡ [] }
    {
        PlaceTable {
            places: Vec::new(alloc),
        }
    }

    /// The place of a name, if it has one.
    pub fn get(&self, name: NameId) -> Option<usize>
        ensures { result ≡ place_at self.now name }
    {
        self.places.get(name.0).copied().unwrap_or(None)
    }

    /// Makes the list so long that the number of a name stands in it.
    fn make_room(&mut self, name: NameId) -> Result<(), Memory>
        ensures room { OnOk result (name < length self.new) }
        ensures same { (n : ℕ) → place_at self.new n ≡ place_at self.old n }
    {
        if name.0 < self.places.len() {
            return Ok(());
        }
        let Some(count) = name.0.checked_add(1) else {
            return Err(Memory);
        };
        self.places.resize(count, None)?;
        Ok(())
    }

    /// Gives a name whose number stands in the list a place, or none.
    fn set(&mut self, name: NameId, place: Option<usize>)
        requires { name < length self.old }
        ensures { (n : ℕ) → place_at self.new n ≡ cond (nat_eq name n) place (place_at self.old n) }
    {
        self.places[name.0] = place;
    }

    /// Notes the place of a name, instead of the one that the table may have for it.
    pub fn put(&mut self, name: NameId, place: usize) -> Result<(), Memory>
        ensures { OnOk result ((n : ℕ) → place_at self.new n ≡ cond (nat_eq name n) (Some place) (place_at self.old n)) }
    {
        self.make_room(name)?;
        self.set(name, Some(place));
        Ok(())
    }

    /// Notes the place of a name, unless the table has one for it.
    pub fn note(&mut self, name: NameId, place: usize) -> Result<(), Memory>
        ensures { OnOk result (IsNoted self.old self.new name place) }
    {
        if self.get(name).is_some() {
            return Ok(());
        }
        self.put(name, place)
    }

    /// Forgets the place of a name, if it has one.
    pub fn forget(&mut self, name: NameId)
        ensures { (n : ℕ) → place_at self.new n ≡ cond (nat_eq name n) None (place_at self.old n) }
    {
        if name.0 < self.places.len() {
            self.set(name, None);
        }
    }

    /// Forgets the place of a name, unless it is before another place.
    pub fn forget_from(&mut self, name: NameId, place: usize)
        ensures { (n : ℕ) → place_at self.new n ≡ cond (nat_eq name n) (place_before place (place_at self.old n)) (place_at self.old n) }
    {
        if let Some(noted) = self.get(name) {
            if place <= noted {
                self.forget(name);
            }
        }
    }
}
