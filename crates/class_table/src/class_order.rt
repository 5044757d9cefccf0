// The order of the live classes.
ghost use Rattle.std.specs.Prelude.{◌≡◌, ◌<◌, ◌≤◌, ◌+◌, ℕ, List, [], ◌∷◌, ◌++◌, length, position, nat_eq, false, insert, IfOk, OnErr, OnOk};
ghost use Rattle.std.specs.List.{list_any};
ghost use Rattle.std.specs.Option.{ForSome};
ghost use Rattle.class_table.specs.Order.{OrderOf, IsOrderOf, without, put_at};

use crate::record::ClassId;
use crate::room::{insert_in_room, push_in_room};
use rb_base::Memory;
use std::alloc::Global;
use std::marker::Model;

/// The live ones of the slots of classes, each once, in an order. Any other slot can be put in without memory.
#[derive(Drop)]
pub struct ClassOrder {
    items: Vec<ClassId>,
    // Whether each slot is live.
    live: Vec<bool>,
}

impl Model for ClassOrder {
    ghost use Rattle.std.specs.Prelude.{length};
    ghost use Rattle.std.specs.Vec.{vec_capacity};
    ghost use Rattle.class_table.specs.Order.{OrderOf, IsOrder};

    ghost Value = { OrderOf };

    ghost view = { λ a. record { items = a.items.items; slots = length a.live.items } };

    ghost invariant = { λ a. IsOrder a.items.items a.live.items (vec_capacity a.items) };
}

fn place_of(items: &[ClassId], slot: ClassId) -> Option<usize>
    ensures { result ≡ position (nat_eq slot) items.now }
{
    items.iter().position(|other| slot == *other)
}

impl ClassOrder {
    /// No slots, which takes no memory.
    pub fn new(alloc: Global) -> ClassOrder
        ensures { result ≡ record { items = []; slots = 0 } }
    {
        ClassOrder {
            items: Vec::new(alloc),
            live: Vec::new(alloc),
        }
    }

    /// The live slots in order.
    pub fn items(&self) -> &[ClassId]
        ensures value { result.now ≡ self.now.items }
        ensures order { IsOrderOf self.now }
    {
        &self.items
    }

    /// Whether a slot is live.
    pub fn is_live(&self, slot: ClassId) -> bool
        ensures { result ≡ list_any (nat_eq slot) self.now.items }
    {
        slot.0 < self.live.len() && self.live[slot.0]
    }

    /// Makes a new slot, which is live and last.
    pub fn add(&mut self) -> Result<ClassId, Memory>
        ensures slot { IfOk result (λ n. n ≡ self.old.slots) }
        ensures ok { OnOk result (self.new ≡ record { items = self.old.items ++ self.old.slots ∷ []; slots = self.old.slots + 1 }) }
        ensures err { OnErr result (self.new ≡ self.old) }
    {
        let slot = ClassId(self.live.len());
        self.live.reserve(1)?;
        let room = self
            .live
            .len()
            .saturating_add(1)
            .saturating_sub(self.items.len());
        self.items.reserve(room)?;
        push_in_room(&mut self.live, true);
        push_in_room(&mut self.items, slot);
        Ok(slot)
    }

    /// Takes a slot out of the order, and answers its place if it was live.
    pub fn take_out(&mut self, slot: ClassId) -> Option<usize>
        ensures former { result ≡ position (nat_eq slot) self.old.items }
        ensures order { self.new ≡ record self.old { items = without slot self.old.items } }
    {
        match place_of(&self.items, slot) {
            None => None,
            Some(place) => {
                self.items.remove(place);
                self.live[slot.0] = false;
                Some(place)
            }
        }
    }

    /// Puts a slot that is not live at a place.
    pub fn put(&mut self, slot: ClassId, place: usize)
        requires there { slot < self.old.slots }
        requires not_live { list_any (nat_eq slot) self.old.items ≡ false }
        requires within { place ≤ length self.old.items }
        ensures { self.new ≡ record self.old { items = insert self.old.items place slot } }
    {
        self.live[slot.0] = true;
        insert_in_room(&mut self.items, place, slot);
    }

    /// Puts a slot at a place, or in none, and answers its former place.
    pub fn set_live(&mut self, slot: ClassId, place: Option<usize>) -> Option<usize>
        requires there { slot < self.old.slots }
        requires within { ForSome place (λ at. at ≤ length (without slot self.old.items)) }
        ensures former { result ≡ position (nat_eq slot) self.old.items }
        ensures order { self.new ≡ record self.old { items = put_at slot place (without slot self.old.items) } }
    {
        let _ = self.items();
        let former = self.take_out(slot);
        if let Some(at) = place {
            self.put(slot, at);
        }
        former
    }
}
