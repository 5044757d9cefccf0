// The classes and the methods of a draft are put in order.
ghost use Rattle.std.specs.Prelude.{◌≡◌, ℕ, map, nat_eq, None, OnOk, IsTrue};
ghost use Rattle.image_model.specs.Image.{ClassOf, EntryOf};
ghost use Rattle.file_model.specs.Hierarchy.{settled};
ghost use Rattle.file_model.specs.Places.{class_place, method_place, put_again_behind};
ghost use Rattle.image_draft.specs.Arranged.{in_order};
ghost use Rattle.image_draft.specs.Entries.{entry_of};
ghost use Rattle.placed_draft.specs.Placed.{ordered, with_order, IsWhole, KeepsClasses, KeepsMethods};

use crate::placed_draft::PlacedDraft;
use draft_orders::{put_classes_again, put_methods_again, settle};
use image_draft::arranged;
use rb_base::{Ids, Memory};
use std::alloc::Global;

impl PlacedDraft {
    /// Puts the classes in order, from the order of names.
    pub(crate) fn settle_order(&mut self, alloc: Global, order: Ids) -> Result<(), Memory>
        requires whole { IsWhole (with_order order self.old) }
        requires taken { self.old.order ≡ None }
        ensures settled { OnOk result (self.new ≡ record self.old { draft = record self.old.draft { classes = settled nat_eq (in_order order self.old.draft.classes) } }) }
        ensures whole { OnOk result (IsWhole self.new) }
        ensures places { self.new.places ≡ self.old.places }
    {
        let taken = self.draft.take_classes()?;
        let ordered = arranged(alloc, taken, order.as_slice())?;
        let settled = settle(alloc, ordered)?;
        self.draft.put_classes(alloc, settled)
    }

    /// Whether the classes stay where they stand when they are settled, as in a file that states no places.
    fn keeps_classes(&self) -> bool
        ensures { IsTrue result → KeepsClasses self.now }
    {
        self.order.is_none() && self.places.has_no_class() && self.draft.kernel_classes_first()
    }

    /// Puts the classes in again at the places that are stated for them, and then in order.
    pub(crate) fn settle_classes(&mut self, alloc: Global) -> Result<(), Memory>
        requires { IsWhole self.old }
        ensures settled { OnOk result (self.new ≡ record self.old { order = None; draft = record self.old.draft { classes = settled nat_eq (put_again_behind (λ (c : ClassOf ℕ). c.kernel) (class_place nat_eq self.old.places.classes) (ordered self.old.order self.old.draft.classes)) } }) }
        ensures whole { OnOk result (IsWhole self.new) }
    {
        if self.keeps_classes() {
            return Ok(());
        }
        self.settle_all_classes(alloc)
    }

    /// Puts all classes in again at the places that are stated for them, and then in order.
    fn settle_all_classes(&mut self, alloc: Global) -> Result<(), Memory>
        requires { IsWhole self.old }
        ensures settled { OnOk result (self.new ≡ record self.old { order = None; draft = record self.old.draft { classes = settled nat_eq (put_again_behind (λ (c : ClassOf ℕ). c.kernel) (class_place nat_eq self.old.places.classes) (ordered self.old.order self.old.draft.classes)) } }) }
        ensures whole { OnOk result (IsWhole self.new) }
    {
        let order = self.take_order(alloc)?;
        let taken = self.draft.take_classes()?;
        let ordered = arranged(alloc, taken, order.as_slice())?;
        let again = put_classes_again(alloc, ordered, self.places.of_classes())?;
        let settled = settle(alloc, again)?;
        self.draft.put_classes(alloc, settled)
    }

    /// Whether the methods stay where they stand when they are settled, as in a file that states no places.
    fn keeps_methods(&self) -> bool
        ensures { IsTrue result → KeepsMethods self.now }
    {
        self.places.has_no_method() && self.draft.kernel_methods_first()
    }

    /// Puts the methods in again at the places that are stated for them.
    pub(crate) fn settle_methods(&mut self, alloc: Global) -> Result<(), Memory>
        requires { IsWhole self.old }
        ensures methods { OnOk result (map entry_of self.new.draft.methods ≡ put_again_behind (λ (m : EntryOf ℕ). m.kernel) (method_place nat_eq self.old.places.methods) (map entry_of self.old.draft.methods)) }
        ensures rest { OnOk result (self.new ≡ record self.old { draft = record self.old.draft { methods = self.new.draft.methods } }) }
        ensures whole { OnOk result (IsWhole self.new) }
    {
        if self.keeps_methods() {
            return Ok(());
        }
        self.settle_all_methods(alloc)
    }

    /// Puts all methods in again at the places that are stated for them.
    fn settle_all_methods(&mut self, alloc: Global) -> Result<(), Memory>
        requires { IsWhole self.old }
        ensures methods { OnOk result (map entry_of self.new.draft.methods ≡ put_again_behind (λ (m : EntryOf ℕ). m.kernel) (method_place nat_eq self.old.places.methods) (map entry_of self.old.draft.methods)) }
        ensures rest { OnOk result (self.new ≡ record self.old { draft = record self.old.draft { methods = self.new.draft.methods } }) }
        ensures whole { OnOk result (IsWhole self.new) }
    {
        let methods = self.draft.take_methods(alloc)?;
        let methods = put_methods_again(alloc, methods, self.places.of_methods())?;
        self.draft.put_methods(alloc, methods)
    }
}
