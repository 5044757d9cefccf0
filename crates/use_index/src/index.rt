// The index, and how it is made and kept.
ghost use Rattle.std.specs.Prelude.{◌≡◌, ◌≤◌, ◌+◌, ◌*◌, [], length, Contains, IfOk, OnOk, OnErr};
ghost use Rattle.std.specs.List.{list_any};
ghost use Rattle.class_table.specs.declared.record.Place.{Place};
ghost use Rattle.class_table.specs.Slots.{Slots};
ghost use Rattle.reference_index.specs.Mentioned.{names_at};
ghost use Rattle.use_index.specs.Index.{IsUseIndexOf, UsesDifferAtMost, uses_at};
ghost use Rattle.use_index.specs.Rows.{used_of};
ghost use Rattle.use_index.specs.Uses.{is_use};

use crate::fresh::fresh_uses;
use crate::rows::UseRows;
use crate::uses::{Sought, UseAt};
use class_table::{Image, Place};
use rb_base::{Memory, NameId, Steps};
use reference_index::Index;
use std::alloc::Global;
use std::marker::Model;
use std::sync::ledger::Ledger;

/// Which names the code of an image mentions, and how it uses them. Contracts see the names and the uses of each place.
#[derive(Drop)]
pub struct UseIndex {
    alloc: Global,
    names: Index,
    rows: UseRows,
}

impl Model for UseIndex {
    ghost use Rattle.use_index.specs.Index.{Known};

    ghost Value = { Known };

    ghost view = { λ a. record { names = a.names; uses = a.rows } };
}

impl UseIndex {
    /// The index of an image without code, which takes no memory.
    pub fn new(alloc: Global) -> UseIndex
        ensures { result ≡ record { names = record { methods = []; doits = [] }; uses = record { methods = []; doits = [] } } }
    {
        UseIndex {
            alloc,
            names: Index::new(alloc),
            rows: UseRows::new(alloc),
        }
    }

    /// The index of the names alone.
    pub fn names(&self) -> &Index
        ensures { result.now ≡ self.now.names }
    {
        &self.names
    }

    /// The uses in the code at a place, in its order. Opens nothing.
    pub fn used(&self, place: Place) -> &[UseAt]
        ensures { result.now ≡ used_of self.now.uses place }
    {
        self.rows.used(place)
    }

    /// Whether the code at a place has such a use of the name. Opens nothing.
    pub fn has_use(&self, place: Place, name: NameId, what: Sought) -> bool
        ensures { result ≡ list_any (is_use name what) (used_of self.now.uses place) }
    {
        self.used(place)
            .iter()
            .any(|one| name == one.name && what.answers(one.way))
    }

    /// Makes this the index of an image in which only the code at these places differs. Opens each of the places at most twice. On
    /// want of memory the index is as before.
    pub fn update<L: Ledger>(
        &mut self,
        image: &Image,
        touched: &[Place],
        steps: &mut Steps<L>,
    ) -> Result<(), Memory>
        ensures ok { OnOk result ((s : Slots) → IsUseIndexOf s self.old → UsesDifferAtMost s image.now touched.now → IsUseIndexOf image.now self.new) }
        ensures err { OnErr result (self.new ≡ self.old) }
        ensures steps { steps.new ≤ steps.old + 2 * length touched.now }
    {
        let fresh = fresh_uses(self.alloc, image, touched, steps)?;
        let methods = self.rows.methods();
        let doits = self.rows.doits();
        self.rows.reach_all(self.alloc, &fresh)?;
        match self.names.update(image, touched, steps) {
            Ok(()) => {
                self.rows.set_all(fresh);
                Ok(())
            }
            Err(error) => {
                self.rows.cut(methods, doits);
                Err(error)
            }
        }
    }
}

/// The places of an image at which there is code.
fn places_of(alloc: Global, image: &Image) -> Result<Vec<Place>, Memory>
    ensures names { IfOk result (λ places. (p : Place) → ¬ Contains places.items p → names_at image.now p ≡ []) }
    ensures uses { IfOk result (λ places. (p : Place) → ¬ Contains places.items p → uses_at image.now p ≡ []) }
    ensures length { IfOk result (λ places. length places.items ≡ length image.now.method_order + length image.now.doits) }
{
    let mut places = Vec::new(alloc);
    for slot in image.methods() {
        places.push(Place::Method(*slot))?;
    }
    for number in 0..image.doits() {
        places.push(Place::DoIt(number))?;
    }
    Ok(places)
}

/// The index of an image. Opens each method and do-it at most twice.
pub fn build<L: Ledger>(
    alloc: Global,
    image: &Image,
    steps: &mut Steps<L>,
) -> Result<UseIndex, Memory>
    ensures index { IfOk result (λ index. IsUseIndexOf image.now index) }
    ensures steps { steps.new ≤ steps.old + 2 * (length image.now.method_order + length image.now.doits) }
{
    let places = places_of(alloc, image)?;
    let mut index = UseIndex::new(alloc);
    index.update(image, &places, steps)?;
    Ok(index)
}
