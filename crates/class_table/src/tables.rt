// Tables by which classes and methods are found, which are kept through the changes of an image.
ghost use Rattle.std.specs.Prelude.{◌≡◌, ℕ, List, true, false, nat_eq, Some, None, IfOk, OnOk, OnErr};
ghost use Rattle.std.specs.Option.{option_and_then, ForSome};
ghost use Rattle.std.specs.HashMap.{get, Updates};
ghost use Rattle.class_table.specs.View.{class_name};
ghost use Rattle.class_table.specs.Finding.{is_named, named_in, same_key, key_in, is_method_in, method_in};
ghost use Rattle.class_table.specs.Tables.{key_of, known_at, key_with, IsPlaced, HoldsSlots, KnowsClasses, KnowsClassesWith, KnowsMethods, KnowsMethodsWith};

use crate::class_order::ClassOrder;
use crate::method_order::MethodOrder;
use crate::record::{ClassId, ClassRec, MethodRec, MethodSlot};
use rb_base::{Memory, NameId};
use std::alloc::Global;
use std::collections::HashMap;

/// What tells a method: its class, its side and its selector.
#[derive(Clone, Copy, Debug, PartialEq, Eq, Hash)]
pub struct MethodKey {
    pub class: usize,
    pub meta: bool,
    pub selector: usize,
}

impl MethodKey {
    /// The key of a class, a side and a selector.
    pub fn new(class: ClassId, meta: bool, selector: NameId) -> MethodKey
        ensures { result ≡ record { class = class; meta = meta; selector = selector } }
    {
        MethodKey {
            class: class.0,
            meta,
            selector: selector.0,
        }
    }

    /// The key of a method.
    pub fn of(rec: &MethodRec) -> MethodKey
        ensures { result ≡ key_of rec.now }
    {
        MethodKey::new(rec.class, rec.meta, rec.tree.selector)
    }
}

/// Slots of classes by name. Where it is ready, each live class stands in it under its name, so no two have one name.
#[derive(Drop)]
pub struct ClassTable {
    pub ready: bool,
    pub slots: HashMap<usize, ClassId>,
}

impl ClassTable {
    /// A table that is not ready, which takes no memory.
    pub fn new(alloc: Global) -> ClassTable
        ensures { result.ready ≡ false }
    {
        ClassTable {
            ready: false,
            slots: HashMap::new(alloc),
        }
    }

    /// The slot that stands under a name, if it is that of a live class which has the name.
    pub fn known(&self, classes: &[ClassRec], order: &ClassOrder, name: NameId) -> Option<ClassId>
        ensures { result ≡ option_and_then (known_at (is_named classes.now name) order.now.items) (get nat_eq self.now.slots name) }
    {
        let id = self.slots.get(&name.0).copied()?;
        if order.is_live(id) && is_named(classes, id, name) {
            Some(id)
        } else {
            None
        }
    }

    /// The first live class of a name.
    pub fn find(&self, classes: &[ClassRec], order: &ClassOrder, name: NameId) -> Option<ClassId>
        requires { KnowsClasses self.now classes.now order.now.items }
        ensures { result ≡ named_in classes.now order.now.items name }
    {
        if self.ready {
            self.known(classes, order, name)
        } else {
            find_class(classes, order.items(), name)
        }
    }

    /// Enters a class that is to be live in a slot and to have a name. The table is no longer ready where it has no room, or
    /// another live class has the name.
    pub fn enter(&mut self, classes: &[ClassRec], order: &ClassOrder, id: ClassId, name: NameId)
        requires { KnowsClasses self.old classes.now order.now.items }
        ensures { KnowsClassesWith self.new classes.now order.now.items id name }
    {
        if !self.ready {
            return;
        }
        let free = is_no_class_but(self.known(classes, order, name), id);
        self.ready = free && put_name(&mut self.slots, name.0, id);
    }

    /// Makes the table fit for another name of the class in a slot, which may be live.
    pub fn rename(&mut self, classes: &[ClassRec], order: &ClassOrder, id: ClassId, name: NameId)
        requires { KnowsClasses self.old classes.now order.now.items }
        ensures { self.new.ready ≡ true → HoldsSlots (get nat_eq self.new.slots) (key_with (class_name classes.now) id name) order.now.items None }
    {
        if order.is_live(id) {
            self.enter(classes, order, id, name);
        }
    }

    /// Makes the table fit for an order in which the slot is at a place, or is no longer.
    pub fn place(
        &mut self,
        classes: &[ClassRec],
        order: &ClassOrder,
        id: ClassId,
        place: Option<usize>,
    )
        requires { KnowsClasses self.old classes.now order.now.items }
        ensures { self.new.ready ≡ true → (later : List ℕ) → IsPlaced later order.now.items id place → HoldsSlots (get nat_eq self.new.slots) (class_name classes.now) later None }
    {
        if place.is_none() {
            return;
        }
        if let Some(name) = name_of(classes, id) {
            self.enter(classes, order, id, name);
        }
    }

    /// Makes the table anew, if it is not ready. It is ready then, unless two live classes have one name.
    pub fn fill(
        &mut self,
        alloc: Global,
        classes: &[ClassRec],
        order: &[ClassId],
    ) -> Result<(), Memory>
        requires { KnowsClasses self.old classes.now order.now }
        ensures { KnowsClasses self.new classes.now order.now }
    {
        if self.ready {
            return Ok(());
        }
        if let Some(slots) = class_slots(alloc, classes, order)? {
            self.slots = slots;
            self.ready = true;
        }
        Ok(())
    }
}

// Whether there is no class, or it is that one.
fn is_no_class_but(found: Option<ClassId>, id: ClassId) -> bool
    ensures { result ≡ true → (k : ℕ) → found ≡ Some k → k ≡ id }
{
    match found {
        None => true,
        Some(other) => other == id,
    }
}

// Whether there is no method, or it is that one.
fn is_no_method_but(found: Option<MethodSlot>, slot: MethodSlot) -> bool
    ensures { result ≡ true → (k : ℕ) → found ≡ Some k → k ≡ slot }
{
    match found {
        None => true,
        Some(other) => other == slot,
    }
}

// How many entries a table is made for that has so many: it takes in as many more as a quarter of them.
fn room_for(entries: usize) -> usize {
    entries.saturating_add(entries / 4).saturating_add(16)
}

// Puts a slot in under a name, if there is room, and answers whether it is in.
fn put_name(slots: &mut HashMap<usize, ClassId>, name: usize, id: ClassId) -> bool
    ensures { result ≡ true → Updates nat_eq slots.old slots.new name (Some id) }
{
    if slots.len() == slots.capacity() && !slots.contains_key(&name) {
        return false;
    }
    slots.insert(name, id).is_ok()
}

fn name_of(classes: &[ClassRec], id: ClassId) -> Option<NameId>
    ensures { result ≡ class_name classes.now id }
{
    Some(classes.get(id.0)?.name)
}

fn is_named(classes: &[ClassRec], id: ClassId, name: NameId) -> bool
    ensures { result ≡ is_named classes.now name id }
{
    match name_of(classes, id) {
        None => false,
        Some(other) => name == other,
    }
}

/// The first class of a name among live ones.
fn find_class(classes: &[ClassRec], order: &[ClassId], name: NameId) -> Option<ClassId>
    ensures { result ≡ named_in classes.now order.now name }
{
    order
        .iter()
        .copied()
        .find(|id| is_named(classes, *id, name))
}

// The slots of live classes by name; `None` where two have one name.
fn class_slots(
    alloc: Global,
    classes: &[ClassRec],
    order: &[ClassId],
) -> Result<Option<HashMap<usize, ClassId>>, Memory>
    ensures { IfOk result (λ found. ForSome found (λ slots. HoldsSlots (get nat_eq slots) (class_name classes.now) order.now None)) }
{
    let mut slots = HashMap::with_capacity(alloc, room_for(order.len()))?;
    for id in order {
        if let Some(name) = name_of(classes, *id) {
            if slots.insert(name.0, *id)?.is_some() {
                return Ok(None);
            }
        }
    }
    Ok(Some(slots))
}

/// Slots of methods by class, side and selector. Where it is ready, each live method but the lent one stands in it under its
/// key, so no two of those have one key.
#[derive(Drop)]
pub struct MethodTable {
    pub ready: bool,
    /// The method whose tree was lent to be written last, if nothing was changed since. Its selector may be another one.
    pub lent: Option<MethodSlot>,
    pub slots: HashMap<MethodKey, MethodSlot>,
}

impl MethodTable {
    /// A table that is not ready, which takes no memory.
    pub fn new(alloc: Global) -> MethodTable
        ensures { result.ready ≡ false }
    {
        MethodTable {
            ready: false,
            lent: None,
            slots: HashMap::new(alloc),
        }
    }

    /// The slot that stands under a key, if it is that of a live method which has the key.
    pub fn known(
        &self,
        methods: &[MethodRec],
        order: &MethodOrder,
        key: MethodKey,
    ) -> Option<MethodSlot>
        ensures { result ≡ option_and_then (known_at (is_method_in methods.now key) order.now.items) (get same_key self.now.slots key) }
    {
        let slot = self.slots.get(&key).copied()?;
        live_with(methods, order, slot, key)
    }

    /// The first live method of a class, a side and a selector.
    pub fn find(
        &self,
        methods: &[MethodRec],
        order: &MethodOrder,
        key: MethodKey,
    ) -> Option<MethodSlot>
        requires { KnowsMethods self.now methods.now order.now.items }
        ensures { result ≡ method_in methods.now order.now.items key }
    {
        if !self.ready {
            return find_method(methods, order.items(), key);
        }
        let known = self.known(methods, order, key);
        match self.lent_with(methods, order, key) {
            None => known,
            Some(slot) => {
                if is_no_method_but(known, slot) {
                    Some(slot)
                } else {
                    find_method(methods, order.items(), key)
                }
            }
        }
    }

    // The lent method, if it is live and has the key.
    fn lent_with(
        &self,
        methods: &[MethodRec],
        order: &MethodOrder,
        key: MethodKey,
    ) -> Option<MethodSlot>
        ensures { result ≡ option_and_then (known_at (is_method_in methods.now key) order.now.items) self.now.lent }
    {
        live_with(methods, order, self.lent?, key)
    }

    /// Enters a method that is to be live in a slot and to have a key, where no method is lent, or it is that one. The table is
    /// no longer ready where it has no room, or another live method has the key.
    pub fn enter(
        &mut self,
        methods: &[MethodRec],
        order: &MethodOrder,
        slot: MethodSlot,
        key: MethodKey,
    )
        requires knows { KnowsMethods self.old methods.now order.now.items }
        requires lent { (k : ℕ) → self.old.lent ≡ Some k → k ≡ slot }
        ensures knows { KnowsMethodsWith self.new methods.now order.now.items slot key }
        ensures settled { self.new.lent ≡ None }
    {
        self.lent = None;
        if !self.ready {
            return;
        }
        let free = is_no_method_but(self.known(methods, order, key), slot);
        self.ready = free && put_key(&mut self.slots, key, slot);
    }

    /// Enters the lent method under the key that it has now.
    pub fn settle(&mut self, methods: &[MethodRec], order: &MethodOrder)
        requires { KnowsMethods self.old methods.now order.now.items }
        ensures knows { KnowsMethods self.new methods.now order.now.items }
        ensures settled { self.new.lent ≡ None }
    {
        let Some(slot) = self.lent else {
            return;
        };
        match key_of(methods, slot) {
            None => self.lent = None,
            Some(key) => {
                if order.is_live(slot) {
                    self.enter(methods, order, slot, key);
                } else {
                    self.lent = None;
                }
            }
        }
    }

    /// Makes the table fit for another key of the method in a slot, which may be live.
    pub fn rename(
        &mut self,
        methods: &[MethodRec],
        order: &MethodOrder,
        slot: MethodSlot,
        key: MethodKey,
    )
        requires { KnowsMethods self.old methods.now order.now.items }
        ensures { self.new.ready ≡ true → HoldsSlots (get same_key self.new.slots) (key_with (key_in methods.now) slot key) order.now.items None }
    {
        self.settle(methods, order);
        if order.is_live(slot) {
            self.enter(methods, order, slot, key);
        }
    }

    /// Makes the table fit for a new method, which is live and last.
    pub fn add(
        &mut self,
        methods: &[MethodRec],
        order: &MethodOrder,
        slot: MethodSlot,
        key: MethodKey,
    )
        requires { KnowsMethods self.old methods.now order.now.items }
        ensures { KnowsMethodsWith self.new methods.now order.now.items slot key }
    {
        self.settle(methods, order);
        self.enter(methods, order, slot, key);
    }

    /// Makes the table fit for an order in which the slot is at a place, or is no longer.
    pub fn place(
        &mut self,
        methods: &[MethodRec],
        order: &MethodOrder,
        slot: MethodSlot,
        place: Option<usize>,
    )
        requires { KnowsMethods self.old methods.now order.now.items }
        ensures { self.new.ready ≡ true → (later : List ℕ) → IsPlaced later order.now.items slot place → HoldsSlots (get same_key self.new.slots) (key_in methods.now) later None }
    {
        self.settle(methods, order);
        if place.is_none() {
            return;
        }
        if let Some(key) = key_of(methods, slot) {
            self.enter(methods, order, slot, key);
        }
    }

    /// Makes the table fit for a method whose tree is lent to be written.
    pub fn lend(&mut self, methods: &[MethodRec], order: &MethodOrder, slot: MethodSlot)
        requires { KnowsMethods self.old methods.now order.now.items }
        ensures { self.new.ready ≡ true → HoldsSlots (get same_key self.new.slots) (key_in methods.now) order.now.items (Some slot) × (self.new.lent ≡ Some slot) }
    {
        self.settle(methods, order);
        self.lent = Some(slot);
    }

    /// Makes the table anew, if it is not ready. It is ready then, unless two live methods have one key.
    pub fn fill(
        &mut self,
        alloc: Global,
        methods: &[MethodRec],
        order: &[MethodSlot],
    ) -> Result<(), Memory>
        requires { KnowsMethods self.old methods.now order.now }
        ensures { KnowsMethods self.new methods.now order.now }
    {
        if self.ready {
            return Ok(());
        }
        if let Some(slots) = method_slots(alloc, methods, order)? {
            self.slots = slots;
            self.lent = None;
            self.ready = true;
        }
        Ok(())
    }
}

// Puts a slot in under a key, if there is room, and answers whether it is in.
fn put_key(slots: &mut HashMap<MethodKey, MethodSlot>, key: MethodKey, slot: MethodSlot) -> bool
    ensures { result ≡ true → Updates same_key slots.old slots.new key (Some slot) }
{
    if slots.len() == slots.capacity() && !slots.contains_key(&key) {
        return false;
    }
    slots.insert(key, slot).is_ok()
}

// The slot, if it is that of a live method which has the key.
fn live_with(
    methods: &[MethodRec],
    order: &MethodOrder,
    slot: MethodSlot,
    key: MethodKey,
) -> Option<MethodSlot>
    ensures { result ≡ known_at (is_method_in methods.now key) order.now.items slot }
{
    if order.is_live(slot) && is_method(methods, slot, key) {
        Some(slot)
    } else {
        None
    }
}

/// The first method of a class, a side and a selector among live ones.
fn find_method(methods: &[MethodRec], order: &[MethodSlot], key: MethodKey) -> Option<MethodSlot>
    ensures { result ≡ method_in methods.now order.now key }
{
    order
        .iter()
        .copied()
        .find(|slot| is_method(methods, *slot, key))
}

fn is_method(methods: &[MethodRec], slot: MethodSlot, key: MethodKey) -> bool
    ensures { result ≡ is_method_in methods.now key slot }
{
    match key_of(methods, slot) {
        None => false,
        Some(other) => key == other,
    }
}

fn key_of(methods: &[MethodRec], slot: MethodSlot) -> Option<MethodKey>
    ensures { result ≡ key_in methods.now slot }
{
    Some(MethodKey::of(methods.get(slot.0)?))
}

// The slots of live methods by class, side and selector; `None` where two have one key.
fn method_slots(
    alloc: Global,
    methods: &[MethodRec],
    order: &[MethodSlot],
) -> Result<Option<HashMap<MethodKey, MethodSlot>>, Memory>
    ensures { IfOk result (λ found. ForSome found (λ slots. HoldsSlots (get same_key slots) (key_in methods.now) order.now None)) }
{
    let mut slots = HashMap::with_capacity(alloc, room_for(order.len()))?;
    for slot in order {
        if let Some(key) = key_of(methods, *slot) {
            if slots.insert(key, *slot)?.is_some() {
                return Ok(None);
            }
        }
    }
    Ok(Some(slots))
}
