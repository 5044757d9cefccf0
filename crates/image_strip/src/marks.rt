// What is reached, as marks.
ghost use Rattle.std.specs.Prelude.{◌≡◌, ◌&&◌, ◌||◌, ℕ, [], nat_eq, OnOk};
ghost use Rattle.std.specs.List.{list_any, list_all};
ghost use Rattle.image_strip.specs.Reached.{is_marked};

use class_table::MethodSlot;
use rb_base::{Ids, Memory, NameId};
use std::alloc::Global;
use std::marker::Model;

/// Classes, selectors and methods that are reached. Contracts see the marks: classes and selectors are marked by the numbers
/// of their names, and methods by the numbers of their slots; `reached` in specs/ reads them as what is reached of an image.
#[derive(Drop)]
pub struct Reach {
    classes: Vec<bool>,
    selectors: Vec<bool>,
    methods: Vec<bool>,
    // The names of classes and selectors that were not marked before, until they are taken.
    fresh: Vec<NameId>,
}

impl Model for Reach {
    ghost use Rattle.image_strip.specs.Reached.{Marks};

    ghost Value = { Marks };

    ghost view = { λ a. record { classes = a.classes.items; selectors = a.selectors.items; methods = a.methods.items } };
}

/// Whether a number is marked. Those behind all marks are not.
fn is_marked(marks: &[bool], number: usize) -> bool
    ensures { result ≡ is_marked marks.now number }
{
    marks.get(number).copied().unwrap_or(false)
}

/// Whether all of these numbers are marked.
fn are_marked(marks: &[bool], names: &[NameId]) -> bool
    ensures { result ≡ list_all (is_marked marks.now) names.now }
{
    for name in names {
        if !is_marked(marks, name.0) {
            return false;
        }
    }
    true
}

/// Marks a number. The error is want of memory.
fn mark(marks: &mut Vec<bool>, number: usize) -> Result<(), Memory>
    ensures { OnOk result ((n : ℕ) → is_marked marks.new.items n ≡ (nat_eq n number || is_marked marks.old.items n)) }
{
    while marks.len() <= number {
        marks.push(false)?;
    }
    marks[number] = true;
    Ok(())
}

/// Marks the numbers of names, and puts those that were not marked among the fresh ones. The error is want of memory.
fn mark_all(marks: &mut Vec<bool>, names: &[NameId], fresh: &mut Vec<NameId>) -> Result<(), Memory>
    ensures { OnOk result ((n : ℕ) → is_marked marks.new.items n ≡ (list_any (nat_eq n) names.now || is_marked marks.old.items n)) }
{
    for name in names {
        if !is_marked(marks, name.0) {
            fresh.push(*name)?;
        }
        mark(marks, name.0)?;
    }
    Ok(())
}

impl Reach {
    /// Nothing, which takes no memory.
    pub(crate) fn new(alloc: Global) -> Reach
        ensures { result ≡ record { classes = []; selectors = []; methods = [] } }
    {
        Reach {
            classes: Vec::new(alloc),
            selectors: Vec::new(alloc),
            methods: Vec::new(alloc),
            fresh: Vec::new(alloc),
        }
    }

    /// Where its memory comes from.
    pub(crate) fn alloc(&self) -> Global {
        *self.methods.allocator()
    }

    /// Puts in the classes and the selectors of these names. The error is want of memory.
    pub(crate) fn add_names(&mut self, classes: &Ids, selectors: &Ids) -> Result<(), Memory>
        ensures classes { OnOk result ((n : ℕ) → is_marked self.new.classes n ≡ (list_any (nat_eq n) classes.now || is_marked self.old.classes n)) }
        ensures selectors { OnOk result ((n : ℕ) → is_marked self.new.selectors n ≡ (list_any (nat_eq n) selectors.now || is_marked self.old.selectors n)) }
        ensures methods { self.new.methods ≡ self.old.methods }
    {
        mark_all(&mut self.classes, classes.as_slice(), &mut self.fresh)?;
        mark_all(&mut self.selectors, selectors.as_slice(), &mut self.fresh)
    }

    /// Takes one of the names of classes and selectors that came in and were not taken since, if there is one.
    pub(crate) fn take_fresh(&mut self) -> Option<NameId>
        ensures { self.new ≡ self.old }
    {
        self.fresh.pop()
    }

    /// Puts in the method in the slot. The error is want of memory.
    pub(crate) fn add_method(&mut self, slot: MethodSlot) -> Result<(), Memory>
        ensures methods { OnOk result ((n : ℕ) → is_marked self.new.methods n ≡ (nat_eq n slot || is_marked self.old.methods n)) }
        ensures classes { self.new.classes ≡ self.old.classes }
        ensures selectors { self.new.selectors ≡ self.old.selectors }
    {
        mark(&mut self.methods, slot.0)
    }

    /// Whether the class of the name is reached.
    pub fn has_class(&self, class: NameId) -> bool
        ensures { result ≡ is_marked self.now.classes class }
    {
        is_marked(&self.classes, class.0)
    }

    /// Whether the selector is reached.
    pub fn has_selector(&self, selector: NameId) -> bool
        ensures { result ≡ is_marked self.now.selectors selector }
    {
        is_marked(&self.selectors, selector.0)
    }

    /// Whether the method in the slot is reached.
    pub fn has_method(&self, slot: MethodSlot) -> bool
        ensures { result ≡ is_marked self.now.methods slot }
    {
        is_marked(&self.methods, slot.0)
    }

    /// Whether the classes and the selectors of these names are reached.
    pub(crate) fn has_all(&self, classes: &Ids, selectors: &Ids) -> bool
        ensures { result ≡ (list_all (is_marked self.now.classes) classes.now && list_all (is_marked self.now.selectors) selectors.now) }
    {
        are_marked(&self.classes, classes.as_slice())
            && are_marked(&self.selectors, selectors.as_slice())
    }
}
