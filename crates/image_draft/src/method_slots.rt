// Methods in slots.
ghost use Rattle.std.specs.Prelude.{◌≡◌, ◌+◌, ◌<◌, ◌∷◌, ◌++◌, [], filter, if◌then◌else◌, length, map, not, nat_eq, is_some, option_copied, slice_get, slice_set, vec_len, Option, None, Some, IfNone, IfSome, IfOk, OnErr, OnOk};
ghost use Rattle.std.specs.HashMap.{get};
ghost use Rattle.image_model.specs.Lookup as lookup;
ghost use Rattle.st_tree.specs.View.{method_of};
ghost use Rattle.file_model.specs.Causes.{first_cause};
ghost use Rattle.file_model.specs.Refusals as refusals;
ghost use Rattle.file_model.specs.Refusals.{method_refusals};
ghost use Rattle.file_model.specs.Applied.{with_method};
ghost use Rattle.image_draft.specs.Early.{told};
ghost use Rattle.image_draft.specs.Entries.{entry_of, run_of};
ghost use Rattle.image_draft.specs.MethodSlots.{same_key, key_of, those_there, without_its, KeepsMethods};
ghost use Rattle.std.specs.List.{filter_map};
ghost use Rattle.std.specs.Option.{option_and_then};

use crate::method_draft::MethodDraft;
use file_faults::ImageCause;
use rb_base::{Memory, NameId};
use std::alloc::Global;
use std::collections::HashMap;

/// How many methods there may be, those of the kernel among them.
const METHOD_LIMIT: usize = 200_000;

/// What tells a method: the number of the name of its class, its side, and the number of its selector.
#[derive(Clone, Copy, PartialEq, Eq, Hash)]
pub struct MethodKey {
    class: usize,
    meta: bool,
    selector: usize,
}

impl MethodKey {
    /// The key of a class, a side and a selector.
    pub fn new(class: NameId, meta: bool, selector: NameId) -> MethodKey
        ensures { result ≡ record { class = class; meta = meta; selector = selector } }
    {
        MethodKey {
            class: class.0,
            meta,
            selector: selector.0,
        }
    }
}

/// The key of a method.
fn key_of(method: &MethodDraft) -> MethodKey
    ensures { result ≡ key_of method.now }
{
    MethodKey::new(method.class, method.meta, method.tree.selector)
}

/// Methods in the order in which they were put in first. A method that is removed leaves its slot empty.
#[derive(Drop)]
pub struct MethodSlots {
    pub(crate) slots: Vec<Option<MethodDraft>>,
    /// The place of each method that is there.
    pub(crate) places: HashMap<MethodKey, usize>,
    /// How many methods are there.
    pub(crate) count: usize,
}

impl MethodSlots {
    /// No methods, which takes no memory.
    pub fn new(alloc: Global) -> MethodSlots
        ensures nothing { those_there result.slots.items ≡ [] }
        ensures keeps { KeepsMethods result }
    {
        MethodSlots {
            slots: Vec::new(alloc),
            places: HashMap::new(alloc),
            count: 0,
        }
    }

    /// The place of the method of a key.
    fn place_of(&self, key: MethodKey) -> Option<usize>
        ensures { result ≡ get same_key self.now.places key }
    {
        self.places.get(&key).copied()
    }

    /// Whether the method at a place is one of the kernel.
    fn is_kernel_at(&self, place: usize) -> bool
        ensures { IfSome (slice_get self.now.slots.items place) (λ slot. IfSome slot (λ m. result ≡ m.kernel)) }
    {
        match item_at(&self.slots, place) {
            None => false,
            Some(method) => method.kernel,
        }
    }

    /// Whether the method of a key is one of the kernel.
    pub fn is_kernel(&self, key: MethodKey) -> bool
        requires { KeepsMethods self.now }
        ensures { result ≡ refusals.is_kernel_method nat_eq (map entry_of (those_there self.now.slots.items)) key.class key.meta key.selector }
    {
        match self.place_of(key) {
            None => false,
            Some(place) => self.is_kernel_at(place),
        }
    }

    /// Puts a slot at the end.
    fn push_slot(&mut self, method: MethodDraft) -> Result<(), Memory>
        ensures pushed { OnOk result (self.new.slots.items ≡ self.old.slots.items ++ Some method ∷ []) }
        ensures unchanged { OnErr result (self.new.slots.items ≡ self.old.slots.items) }
        ensures rest { self.new ≡ record self.old { slots = self.new.slots } }
    {
        self.slots.push(Some(method))?;
        Ok(())
    }

    /// Lists a place under a key.
    fn list(&mut self, key: MethodKey, place: usize) -> Result<(), Memory>
        ensures listed { OnOk result ((q : MethodKey) → get same_key self.new.places q ≡ (if same_key key q then Some place else get same_key self.old.places q)) }
        ensures unchanged { OnErr result ((q : MethodKey) → get same_key self.new.places q ≡ get same_key self.old.places q) }
        ensures rest { self.new ≡ record self.old { places = self.new.places } }
    {
        self.places.insert(key, place)?;
        Ok(())
    }

    /// Puts a method whose key is not listed at the end. On want of memory no method is gone and none is new.
    fn add(&mut self, key: MethodKey, method: MethodDraft) -> Result<(), Memory>
        requires keeps { KeepsMethods self.old }
        requires is_new { get same_key self.old.places key ≡ None }
        requires its { key_of method ≡ key }
        requires room { self.old.count < 200000 }
        ensures added { OnOk result (those_there self.new.slots.items ≡ those_there self.old.slots.items ++ method ∷ []) }
        ensures keeps { KeepsMethods self.new }
    {
        let place = self.slots.len();
        self.push_slot(method)?;
        if self.list(key, place).is_err() {
            self.slots.truncate(place);
            return Err(Memory);
        }
        self.count += 1;
        Ok(())
    }

    /// Puts a method whose key is not listed at the end, or tells why it is refused.
    fn put_new(&mut self, key: MethodKey, method: MethodDraft) -> Result<Option<ImageCause>, Memory>
        requires keeps { KeepsMethods self.old }
        requires is_new { get same_key self.old.places key ≡ None }
        requires its { key_of method ≡ key }
        ensures cause { IfOk result (λ cause. told cause ≡ first_cause (method_refusals nat_eq (map entry_of (those_there self.old.slots.items)) (run_of method) method.tree.selector)) }
        ensures some { IfOk result (λ cause. is_some cause ≡ is_some (first_cause (method_refusals nat_eq (map entry_of (those_there self.old.slots.items)) (run_of method) method.tree.selector))) }
        ensures changed { IfOk result (λ cause. IfNone cause (map entry_of (those_there self.new.slots.items) ≡ with_method nat_eq method.kernel (run_of method) method.source (method_of method.tree) (map entry_of (those_there self.old.slots.items)))) }
        ensures keeps { KeepsMethods self.new }
    {
        if METHOD_LIMIT <= self.count {
            return Ok(Some(ImageCause::TooMany));
        }
        self.add(key, method)?;
        Ok(None)
    }

    /// Puts a method in the place of the one of its key, or tells why it is refused.
    fn put_at(&mut self, place: usize, method: MethodDraft) -> Option<ImageCause>
        requires keeps { KeepsMethods self.old }
        requires there { get same_key self.old.places (key_of method) ≡ Some place }
        ensures cause { told result ≡ first_cause (method_refusals nat_eq (map entry_of (those_there self.old.slots.items)) (run_of method) method.tree.selector) }
        ensures some { is_some result ≡ is_some (first_cause (method_refusals nat_eq (map entry_of (those_there self.old.slots.items)) (run_of method) method.tree.selector)) }
        ensures changed { IfNone result (map entry_of (those_there self.new.slots.items) ≡ with_method nat_eq method.kernel (run_of method) method.source (method_of method.tree) (map entry_of (those_there self.old.slots.items))) }
        ensures keeps { KeepsMethods self.new }
    {
        if self.is_kernel_at(place) {
            return Some(ImageCause::KernelReplaced);
        }
        set_slot(&mut self.slots, place, Some(method));
        None
    }

    /// Puts a method in the place of the former one of its class, its side and its selector, or last, or tells why it is
    /// refused.
    pub fn put(&mut self, method: MethodDraft) -> Result<Option<ImageCause>, Memory>
        requires { KeepsMethods self.old }
        ensures cause { IfOk result (λ cause. told cause ≡ first_cause (method_refusals nat_eq (map entry_of (those_there self.old.slots.items)) (run_of method) method.tree.selector)) }
        ensures some { IfOk result (λ cause. is_some cause ≡ is_some (first_cause (method_refusals nat_eq (map entry_of (those_there self.old.slots.items)) (run_of method) method.tree.selector))) }
        ensures changed { IfOk result (λ cause. IfNone cause (map entry_of (those_there self.new.slots.items) ≡ with_method nat_eq method.kernel (run_of method) method.source (method_of method.tree) (map entry_of (those_there self.old.slots.items)))) }
        ensures keeps { KeepsMethods self.new }
    {
        let key = key_of(&method);
        match self.place_of(key) {
            None => self.put_new(key, method),
            Some(place) => Ok(self.put_at(place, method)),
        }
    }

    /// Takes a key out of the table, and gives the place that it had.
    fn unlist(&mut self, key: MethodKey) -> Option<usize>
        ensures place { result ≡ get same_key self.old.places key }
        ensures unlisted { (q : MethodKey) → get same_key self.new.places q ≡ (if same_key key q then None else get same_key self.old.places q) }
        ensures rest { self.new ≡ record self.old { places = self.new.places } }
    {
        self.places.remove(&key)
    }

    /// Takes the method of a key away, if there is one.
    pub fn remove(&mut self, key: MethodKey)
        requires { KeepsMethods self.old }
        ensures removed { those_there self.new.slots.items ≡ filter (λ m. not (lookup.is_method nat_eq key.class key.meta key.selector (entry_of m))) (those_there self.old.slots.items) }
        ensures emptied { IfSome (get same_key self.old.places key) (λ place. self.new.slots.items ≡ slice_set self.old.slots.items place None) }
        ensures keeps { KeepsMethods self.new }
    {
        if let Some(place) = self.unlist(key) {
            set_slot(&mut self.slots, place, None);
            self.count -= 1;
        }
    }

    /// The key of the method at a place, if there is one, and it is of a class.
    fn key_at(&self, place: usize, class: NameId) -> Option<MethodKey>
        ensures { IfSome (slice_get self.now.slots.items place) (λ slot. result ≡ option_and_then (λ m. if nat_eq class m.class then Some (key_of m) else None) slot) }
    {
        match item_at(&self.slots, place) {
            Some(method) if class == method.class => Some(key_of(method)),
            _ => None,
        }
    }

    /// Empties a slot if its method is one of a class.
    fn clear_at(&mut self, place: usize, class: NameId)
        requires keeps { KeepsMethods self.old }
        requires within { place < vec_len self.old.slots }
        ensures cleared { IfSome (slice_get self.old.slots.items place) (λ slot. self.new.slots.items ≡ slice_set self.old.slots.items place (without_its class slot)) }
        ensures keeps { KeepsMethods self.new }
    {
        if let Some(key) = self.key_at(place, class) {
            self.remove(key);
        }
    }

    /// Takes the methods of a class away, those of its class side too. It takes time in the number of slots.
    pub fn remove_of(&mut self, class: NameId)
        requires { KeepsMethods self.old }
        ensures removed { those_there self.new.slots.items ≡ filter (λ m. not (nat_eq class m.class)) (those_there self.old.slots.items) }
        ensures keeps { KeepsMethods self.new }
    {
        for place in 0..self.slots.len() {
            self.clear_at(place, class);
        }
    }

    /// Puts a method whose key is not listed at the end, where there is room for one.
    fn add_new(&mut self, method: MethodDraft) -> Result<(), Memory>
        requires { KeepsMethods self.old }
        ensures added { OnOk result (those_there self.new.slots.items ≡ those_there self.old.slots.items ++ method ∷ []) }
        ensures keeps { KeepsMethods self.new }
    {
        let key = key_of(&method);
        if self.place_of(key).is_some() || METHOD_LIMIT <= self.count {
            return Err(Memory);
        }
        self.add(key, method)
    }

    /// These methods, of which no two have one key, and which are not too many; for others it answers want of memory.
    pub fn from_items(alloc: Global, items: Vec<MethodDraft>) -> Result<MethodSlots, Memory>
        ensures there { IfOk result (λ s. those_there s.slots.items ≡ items.items) }
        ensures keeps { IfOk result KeepsMethods }
    {
        let mut slots = MethodSlots::new(alloc);
        for method in items {
            slots.add_new(method)?;
        }
        Ok(slots)
    }
}

/// What is in the slot at a place, if there is such a slot and something in it.
fn item_at<T>(slots: &[Option<T>], place: usize) -> Option<&T>
    ensures { IfSome (slice_get slots.now place) (λ slot. option_copied result ≡ slot) }
{
    slots.get(place)?.as_ref()
}

/// Writes a slot.
fn set_slot<T: Drop>(slots: &mut Vec<Option<T>>, place: usize, slot: Option<T>)
    requires { place < vec_len slots.old }
    ensures { slots.new.items ≡ slice_set slots.old.items place slot }
{
    slots[place] = slot;
}

/// What is in the slots, in order, where it is known in how many of them there is something.
pub fn those_there<T: Drop>(
    alloc: Global,
    slots: Vec<Option<T>>,
    count: usize,
) -> Result<Vec<T>, Memory>
    ensures { IfOk result (λ items. items.items ≡ filter_map (λ (slot : Option T). slot) slots.items) }
{
    let mut items = Vec::with_capacity(alloc, count)?;
    for slot in slots {
        if let Some(item) = slot {
            items.push(item)?;
        }
    }
    Ok(items)
}
