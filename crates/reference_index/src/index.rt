// The index, and how it is made and kept.
ghost use Rattle.std.specs.Prelude.{◌≡◌, ◌≤◌, ◌+◌, ℕ, [], ◌++◌, length, All, Contains, IfOk, OnOk, OnErr};
ghost use Rattle.std.specs.List.{flat_map};
ghost use Rattle.class_table.specs.Slots.{Slots};
ghost use Rattle.class_table.specs.declared.record.Place.{Place};
ghost use Rattle.reference_index.specs.declared.fresh.Fresh.{Fresh};
ghost use Rattle.reference_index.specs.Mentioned.{Mentioned, IsIndexOf, ListsPlaces, DiffersAtMost, names_at, kept_of};
ghost use Rattle.reference_index.specs.Rows.{Fits};
ghost use Rattle.reference_index.specs.Fresh.{AllRise, comes};
ghost use Rattle.reference_index.specs.Lists.{list_of, SameMentioning};

use crate::fresh::{Fresh, fresh_names, names_gone};
use crate::lists::{Places, enter_all, list, settle_all, settle_each};
use crate::rows::Rows;
use class_table::{Image, Place};
use rb_base::{Memory, NameId, Steps};
use std::alloc::Global;
use std::marker::Model;
use std::sync::ledger::Ledger;

/// Which names the code of an image mentions, and where. Contracts see the names of each place.
#[derive(Drop)]
pub struct Index {
    alloc: Global,
    rows: Rows,
    lists: Vec<Places>,
}

impl Model for Index {
    ghost use Rattle.std.specs.Prelude.{[]};
    ghost use Rattle.reference_index.specs.Mentioned.{Mentioned};

    ghost Value = { Mentioned };

    ghost view = { λ a. a.rows };

    ghost use Rattle.reference_index.specs.Lists.{AreListsOf};

    ghost invariant = { λ a. AreListsOf a.rows a.lists.items };
}

impl Index {
    /// The index of an image without code, which takes no memory.
    pub fn new(alloc: Global) -> Index
        ensures { result ≡ record { methods = []; doits = [] } }
    {
        Index {
            alloc,
            rows: Rows::new(alloc),
            lists: Vec::new(alloc),
        }
    }

    /// The places whose code mentions the name, each once, in no order that is told.
    pub fn listed(&self, name: NameId) -> &[Place]
        ensures { ListsPlaces self.now name result.now }
    {
        list(&self.lists, name)
    }

    /// Makes this the index of an image in which only the code at these places mentions other names than before. Opens each of
    /// the places at most once. On want of memory the index is as before.
    pub fn update<L: Ledger>(
        &mut self,
        image: &Image,
        touched: &[Place],
        steps: &mut Steps<L>,
    ) -> Result<(), Memory>
        ensures ok { OnOk result ((s : Slots) → IsIndexOf s self.old → DiffersAtMost s image.now touched.now → IsIndexOf image.now self.new) }
        ensures err { OnErr result (self.new ≡ self.old) }
        ensures steps { steps.new ≤ steps.old + length touched.now }
    {
        let fresh = fresh_names(self.alloc, image, touched, steps)?;
        let going = names_gone(self.alloc, &self.rows, &fresh)?;
        match make_room(self.alloc, &mut self.lists, &mut self.rows, &fresh) {
            Ok(()) => {
                self.rows.set_all(fresh);
                settle_each(&mut self.lists, &self.rows, &going);
                Ok(())
            }
            Err(error) => {
                settle_all(&mut self.lists, &self.rows);
                Err(error)
            }
        }
    }
}

/// Puts each place into the lists of the names that it comes to mention, and makes its row. On want of memory the rows are as
/// before, and lists have more places.
fn make_room(
    alloc: Global,
    lists: &mut Vec<Places>,
    rows: &mut Rows,
    fresh: &[Fresh],
) -> Result<(), Memory>
    requires { AllRise fresh.now }
    ensures lists { OnOk result ((n : ℕ) → list_of lists.new.items n ≡ list_of lists.old.items n ++ flat_map (comes rows.old n) fresh.now) }
    ensures fits { OnOk result (All (λ (f : Fresh). Fits rows.new f.place f.names) fresh.now) }
    ensures kept { (p : Place) → kept_of rows.new p ≡ kept_of rows.old p }
    ensures same { SameMentioning rows.old lists.old.items lists.new.items }
    ensures err { OnErr result (rows.new ≡ rows.old) }
{
    enter_all(alloc, lists, rows, fresh)?;
    rows.reach_all(alloc, fresh)
}

/// The places of an image at which there is code.
fn places_of(alloc: Global, image: &Image) -> Result<Vec<Place>, Memory>
    ensures all { IfOk result (λ places. (p : Place) → ¬ Contains places.items p → names_at image.now p ≡ []) }
    ensures length { IfOk result (λ places. length places.items ≡ length image.now.method_order + length image.now.doits) }
{
    let mut places = Vec::new(alloc);
    for slot in image.methods() {
        places.push(Place::Method(*slot))?;
    }
    for number in 0..image.doits() {
        places.push(Place::DoIt(number))?;
    }
    Ok(places)
}

/// The index of an image. Opens each method and do-it once.
pub fn build<L: Ledger>(alloc: Global, image: &Image, steps: &mut Steps<L>) -> Result<Index, Memory>
    ensures index { IfOk result (λ index. IsIndexOf image.now index) }
    ensures steps { steps.new ≤ steps.old + length image.now.method_order + length image.now.doits }
{
    let places = places_of(alloc, image)?;
    let mut index = Index::new(alloc);
    index.update(image, &places, steps)?;
    Ok(index)
}
