// Classes in a list, found by their names.
ghost use Rattle.std.specs.Prelude.{◌≡◌, ℕ, List, ◌+◌, ◌<◌, ◌≤◌, ◌∷◌, ◌++◌, [], true, drop, take, filter, length, not, position, slice_get, slice_set, nat_eq, option_copied, option_map, IfSome, IfOk, OnOk};
ghost use Rattle.std.specs.Option.{option_or};
ghost use Rattle.image_model.specs.Image.{ClassOf};
ghost use Rattle.image_model.specs.Chain.{class_named};
ghost use Rattle.file_model.specs.Applied.{class_again};
ghost use Rattle.image_draft.specs.Names.{NamesDiffer};
ghost use Rattle.image_draft.specs.Alone.{put_back};
ghost use Rattle.image_draft.specs.Table.{place_at, place_in, IsPlaceTable, IsNoted};

use crate::boxed_class::BoxedClass;
use crate::class_draft::{ClassDraft, Definition};
use crate::place_table::PlaceTable;
use rb_base::{Ids, Memory, NameId, Text};
use std::alloc::Global;
use std::marker::Model;
use std::mem::replace;

/// Classes in some order, with a table of their places by name. Contracts see the list.
#[derive(Drop)]
pub struct ClassList {
    alloc: Global,
    items: Vec<BoxedClass>,
    // Whether the table has the place of each name.
    ready: bool,
    by_name: PlaceTable,
    // A table in which no name has a place, for a list of classes that are put elsewhere.
    spare: PlaceTable,
}

impl Model for ClassList {
    ghost use Rattle.std.specs.Prelude.{◌≡◌, ℕ, List, [], true};
    ghost use Rattle.image_model.specs.Image.{ClassOf};
    ghost use Rattle.image_draft.specs.Table.{IsPlaceTable};

    ghost Value = { List (ClassOf ℕ) };

    ghost view = { λ a. a.items.items };

    ghost invariant = { λ a. (a.ready ≡ true → IsPlaceTable a.by_name a.items.items) × (IsPlaceTable a.spare []) };
}

impl ClassList {
    /// No classes, which takes no memory.
    pub fn new(alloc: Global) -> ClassList
        ensures { result ≡ [] }
    {
        ClassList {
            alloc,
            items: Vec::new(alloc),
            ready: true,
            by_name: PlaceTable::new(alloc),
            spare: PlaceTable::new(alloc),
        }
    }

    /// These classes, with a table in which no name has a place; where there is no memory for their names, they are searched.
    pub fn from_parts(alloc: Global, items: Vec<BoxedClass>, table: PlaceTable) -> ClassList
        requires { IsPlaceTable table [] }
        ensures { result ≡ items.items }
    {
        let mut by_name = table;
        let ready = note_all(&mut by_name, &items).is_ok();
        ClassList {
            alloc,
            items,
            ready,
            by_name,
            spare: PlaceTable::new(alloc),
        }
    }

    /// The classes in order, and a table in which no name has a place.
    pub fn into_parts(self) -> (Vec<BoxedClass>, PlaceTable)
        ensures items { result.0.items ≡ self }
        ensures table { IsPlaceTable result.1 [] }
    {
        if !self.ready {
            return (self.items, PlaceTable::new(self.alloc));
        }
        let mut table = self.by_name;
        forget_all(&mut table, &self.items);
        (self.items, table)
    }

    /// The classes in order.
    pub fn as_slice(&self) -> &[BoxedClass]
        ensures { result.now ≡ self.now }
    {
        &self.items
    }

    /// The classes from a place on.
    pub fn behind(&self, place: usize) -> &[BoxedClass]
        ensures { result.now ≡ drop place self.now }
    {
        self.items.get(place..).unwrap_or(&[])
    }

    /// The classes in order, given away.
    pub fn into_items(self) -> Result<Vec<ClassDraft>, Memory>
        ensures { IfOk result (λ items. items.items ≡ self) }
    {
        let mut items = Vec::with_capacity(self.alloc, self.items.len())?;
        for class in self.items {
            items.push(class.into_class())?;
        }
        Ok(items)
    }

    /// Takes the classes out, and leaves none.
    pub fn take_all(&mut self) -> ClassList
        ensures taken { result ≡ self.old }
        ensures left { self.new ≡ [] }
    {
        let none = ClassList::new(self.alloc);
        replace(self, none)
    }

    /// How many classes there are.
    pub fn len(&self) -> usize
        ensures { result ≡ length self.now }
    {
        self.items.len()
    }

    /// The place of the first class of a name.
    pub fn place(&self, name: NameId) -> Option<usize>
        ensures { result ≡ position (λ c. nat_eq name c.name) self.now }
    {
        if self.ready {
            self.by_name.get(name)
        } else {
            search_place(&self.items, name)
        }
    }

    /// The first class of a name.
    pub fn find(&self, name: NameId) -> Option<&ClassDraft>
        ensures { option_copied result ≡ class_named nat_eq self.now name }
    {
        match self.place(name) {
            None => None,
            Some(place) => class_at(&self.items, place),
        }
    }

    /// Puts a class last.
    pub fn push(&mut self, class: ClassDraft) -> Result<(), Memory>
        ensures { OnOk result (self.new ≡ self.old ++ class ∷ []) }
    {
        let boxed = BoxedClass::new(self.alloc, class)?;
        self.push_boxed(boxed)
    }

    /// Puts a class last that is on the heap.
    pub fn push_boxed(&mut self, class: BoxedClass) -> Result<(), Memory>
        ensures { OnOk result (self.new ≡ self.old ++ class ∷ []) }
    {
        let name = class.name();
        let place = self.len();
        self.items.push(class)?;
        self.ready = is_noted(self.ready, &mut self.by_name, name, place);
        Ok(())
    }

    /// Puts classes last.
    fn push_all(&mut self, items: Vec<BoxedClass>) -> Result<(), Memory>
        ensures { OnOk result (self.new ≡ self.old ++ items.items) }
    {
        for class in items {
            self.push_boxed(class)?;
        }
        Ok(())
    }

    /// Moves all classes to the end of a list, and keeps its table for other classes.
    pub fn move_behind(&mut self, list: &mut ClassList) -> Result<(), Memory>
        ensures moved { OnOk result (list.new ≡ list.old ++ self.old) }
        ensures left { OnOk result (self.new ≡ []) }
    {
        let (items, table) = self.take_all().into_parts();
        list.push_all(items)?;
        *self = ClassList::from_parts(self.alloc, Vec::new(self.alloc), table);
        Ok(())
    }

    /// Takes the classes from a place on out.
    pub fn split_off(&mut self, place: usize) -> Result<Vec<BoxedClass>, Memory>
        requires { place ≤ length self.old }
        ensures left { OnOk result (self.new ≡ take place self.old) }
        ensures taken { IfOk result (λ items. items.items ≡ drop place self.old) }
    {
        let items = self.items.split_off(place)?;
        if self.ready {
            forget_from(&mut self.by_name, &items, place);
        }
        Ok(items)
    }

    /// Puts the class at a place behind the one at a later place; those between them move up.
    pub fn put_back(&mut self, from: usize, to: usize)
        requires differ { NamesDiffer self.old }
        requires before { from < to }
        requires within { to < length self.old }
        ensures { self.new ≡ put_back from to self.old }
    {
        put_back(&mut self.items, from, to);
        self.ready = are_noted(self.ready, &mut self.by_name, &self.items, from, to);
    }

    /// A list without classes, which takes the spare table of this one.
    pub fn with_spare(&mut self) -> ClassList
        ensures none { result ≡ [] }
        ensures same { self.new ≡ self.old }
    {
        let table = replace(&mut self.spare, PlaceTable::new(self.alloc));
        ClassList::from_parts(self.alloc, Vec::new(self.alloc), table)
    }

    /// Keeps the table of a list that is done with as the spare one.
    pub fn keep_spare(&mut self, list: ClassList)
        ensures { self.new ≡ self.old }
    {
        let (_, table) = list.into_parts();
        self.spare = table;
    }

    /// Gives the class at a place another comment.
    pub fn set_comment(&mut self, place: usize, comment: Text)
        requires { place < length self.old }
        ensures { IfSome (slice_get self.old place) (λ c. self.new ≡ slice_set self.old place (record c { comment = comment })) }
    {
        set_comment(&mut self.items, place, comment);
    }

    /// Gives the class at a place other class-instance variables.
    pub fn set_class_side(&mut self, place: usize, names: Ids)
        requires { place < length self.old }
        ensures { IfSome (slice_get self.old place) (λ c. self.new ≡ slice_set self.old place (record c { class_side = names })) }
    {
        set_class_side(&mut self.items, place, names);
    }

    /// Defines the class at a place again, which keeps its comment and its class-instance variables.
    pub fn redefine(&mut self, place: usize, definition: Definition)
        requires { place < length self.old }
        ensures { IfSome (slice_get self.old place) (λ c. self.new ≡ slice_set self.old place (class_again definition c)) }
    {
        redefine(&mut self.items, place, definition);
    }

    /// Takes the classes of a name away.
    pub fn remove(&mut self, name: NameId)
        ensures { self.new ≡ filter (λ c. not (nat_eq name c.name)) self.old }
    {
        let (items, table) = self.take_all().into_parts();
        let mut left = items;
        remove_class(&mut left, name);
        *self = ClassList::from_parts(self.alloc, left, table);
    }
}

/// The place of the first class of a name, searched from the front.
fn search_place(classes: &[BoxedClass], name: NameId) -> Option<usize>
    ensures { result ≡ position (λ c. nat_eq name c.name) classes.now }
{
    classes.iter().position(|class| class.is_named(name))
}

/// Notes the place of a name in a table, if the table has the places of all others, and tells whether it has them all then.
fn is_noted(ready: bool, table: &mut PlaceTable, name: NameId, place: usize) -> bool
    ensures ready { result ≡ true → ready ≡ true }
    ensures noted { result ≡ true → IsNoted table.old table.new name place }
{
    ready && table.note(name, place).is_ok()
}

/// Puts the class at a place behind the one at a later place.
fn put_back(classes: &mut Vec<BoxedClass>, from: usize, to: usize)
    requires before { from < to }
    requires within { to < length classes.old.items }
    ensures { classes.new.items ≡ put_back from to classes.old.items }
{
    classes[from..to + 1].rotate_left(1);
}

/// Notes the places from one to another anew.
fn note_places(
    table: &mut PlaceTable,
    classes: &[BoxedClass],
    from: usize,
    to: usize,
) -> Result<(), Memory>
    requires before { from ≤ to }
    requires within { to < length classes.now }
    ensures { OnOk result ((n : ℕ) → place_at table.new n ≡ option_or (option_map (λ k. from + k) (place_in (drop from (take (to + 1) classes.now)) n)) (place_at table.old n)) }
{
    let mut place = to + 1;
    while place > from {
        place -= 1;
        table.put(classes[place].name(), place)?;
    }
    Ok(())
}

/// Notes the places from one to another anew, if the table has the places of all names, and tells whether it has them all
/// then.
fn are_noted(
    ready: bool,
    table: &mut PlaceTable,
    classes: &[BoxedClass],
    from: usize,
    to: usize,
) -> bool
    requires before { from ≤ to }
    requires within { to < length classes.now }
    ensures ready { result ≡ true → ready ≡ true }
    ensures noted { result ≡ true → (n : ℕ) → place_at table.new n ≡ option_or (option_map (λ k. from + k) (place_in (drop from (take (to + 1) classes.now)) n)) (place_at table.old n) }
{
    ready && note_places(table, classes, from, to).is_ok()
}

/// The class at a place.
fn class_at(classes: &[BoxedClass], place: usize) -> Option<&ClassDraft>
    ensures { option_copied result ≡ slice_get classes.now place }
{
    Some(classes.get(place)?.class())
}

/// Notes the place of the first class of each name in a table in which no name has a place.
fn note_all(table: &mut PlaceTable, classes: &[BoxedClass]) -> Result<(), Memory>
    requires { IsPlaceTable table.old [] }
    ensures { OnOk result (IsPlaceTable table.new classes.now) }
{
    let mut place = 0;
    for class in classes {
        table.note(class.name(), place)?;
        place += 1;
    }
    Ok(())
}

/// Forgets the places of the names of all classes.
fn forget_all(table: &mut PlaceTable, classes: &[BoxedClass])
    requires { IsPlaceTable table.old classes.now }
    ensures { IsPlaceTable table.new [] }
{
    for class in classes {
        table.forget(class.name());
    }
}

/// Forgets the places of the names of classes that stand from a place on, but those of names that have one before it.
fn forget_from(table: &mut PlaceTable, classes: &[BoxedClass], place: usize)
    ensures { (front : List (ClassOf ℕ)) → length front ≡ place → IsPlaceTable table.old (front ++ classes.now) → IsPlaceTable table.new front }
{
    for class in classes {
        table.forget_from(class.name(), place);
    }
}

/// Gives the class at a place another comment.
fn set_comment(classes: &mut Vec<BoxedClass>, place: usize, comment: Text)
    requires { place < length classes.old.items }
    ensures set { IfSome (slice_get classes.old.items place) (λ c. classes.new.items ≡ slice_set classes.old.items place (record c { comment = comment })) }
    ensures places { (n : ℕ) → place_in classes.new.items n ≡ place_in classes.old.items n }
{
    classes[place].set_comment(comment);
}

/// Gives the class at a place other class-instance variables.
fn set_class_side(classes: &mut Vec<BoxedClass>, place: usize, names: Ids)
    requires { place < length classes.old.items }
    ensures set { IfSome (slice_get classes.old.items place) (λ c. classes.new.items ≡ slice_set classes.old.items place (record c { class_side = names })) }
    ensures places { (n : ℕ) → place_in classes.new.items n ≡ place_in classes.old.items n }
{
    classes[place].set_class_side(names);
}

/// Defines the class at a place again.
fn redefine(classes: &mut Vec<BoxedClass>, place: usize, definition: Definition)
    requires { place < length classes.old.items }
    ensures set { IfSome (slice_get classes.old.items place) (λ c. classes.new.items ≡ slice_set classes.old.items place (class_again definition c)) }
    ensures places { (n : ℕ) → place_in classes.new.items n ≡ place_in classes.old.items n }
{
    classes[place].redefine(definition);
}

/// Takes the classes of a name away.
fn remove_class(classes: &mut Vec<BoxedClass>, name: NameId)
    ensures { classes.new.items ≡ filter (λ c. not (nat_eq name c.name)) classes.old.items }
{
    classes.retain(|class| !class.is_named(name));
}
