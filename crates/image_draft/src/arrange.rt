// Classes in the order of names.
ghost use Rattle.std.specs.Prelude.{◌≡◌, ◌∷◌, ◌++◌, [], ℕ, List, map, slice_get, Some, IfSome, IfOk, OnOk};
ghost use Rattle.image_model.specs.Image.{ClassOf};
ghost use Rattle.image_draft.specs.Table.{place_in};
ghost use Rattle.image_draft.specs.Arranged.{in_order, at_places, AreLeft};

use crate::class_draft::ClassDraft;
use crate::class_list::ClassList;
use rb_base::{Memory, NameId};
use std::alloc::Global;

/// Classes in a list.
pub fn listed(alloc: Global, classes: Vec<ClassDraft>) -> Result<ClassList, Memory>
    ensures { IfOk result (λ list. list ≡ classes.items) }
{
    let mut list = ClassList::new(alloc);
    for class in classes {
        list.push(class)?;
    }
    Ok(list)
}

/// The place of the class of each name.
fn places_in(
    alloc: Global,
    classes: &ClassList,
    names: &[NameId],
) -> Result<Vec<Option<usize>>, Memory>
    ensures { IfOk result (λ places. places.items ≡ map (place_in classes.now) names.now) }
{
    let mut places = Vec::with_capacity(alloc, names.len())?;
    for name in names {
        places.push(classes.place(*name))?;
    }
    Ok(places)
}

/// Each item in a slot of its own.
fn in_slots<T: Drop>(alloc: Global, items: Vec<T>) -> Result<Vec<Option<T>>, Memory>
    ensures { IfOk result (λ slots. slots.items ≡ map Some items.items) }
{
    let mut slots = Vec::with_capacity(alloc, items.len())?;
    for item in items {
        slots.push(Some(item))?;
    }
    Ok(slots)
}

/// Takes the item out of a slot, if there is such a slot and an item in it.
fn take_slot<T: Drop>(slots: &mut Vec<Option<T>>, place: usize) -> Option<T>
    ensures taken { IfSome result (λ item. slice_get slots.old.items place ≡ Some (Some item)) }
    ensures left { (k : ℕ) (x : T) → slice_get slots.new.items k ≡ Some (Some x) → slice_get slots.old.items k ≡ Some (Some x) }
{
    if place < slots.len() {
        slots[place].take()
    } else {
        None
    }
}

/// Appends the class of a slot, if there is a place. Where no class is there it answers want of memory.
fn take_one(
    taken: &mut Vec<ClassDraft>,
    slots: &mut Vec<Option<ClassDraft>>,
    place: &Option<usize>,
) -> Result<(), Memory>
    ensures taken { (classes : List (ClassOf ℕ)) → AreLeft classes slots.old.items → OnOk result (taken.new.items ≡ taken.old.items ++ at_places (place.now ∷ []) classes) }
    ensures left { (classes : List (ClassOf ℕ)) → AreLeft classes slots.old.items → AreLeft classes slots.new.items }
{
    let Some(place) = *place else {
        return Ok(());
    };
    match take_slot(slots, place) {
        None => Err(Memory),
        Some(class) => {
            taken.push(class)?;
            Ok(())
        }
    }
}

/// The class at each place, in the order of the places. Where a place stands twice or has no class it answers want of memory.
fn take_at(
    alloc: Global,
    classes: Vec<ClassDraft>,
    places: &[Option<usize>],
) -> Result<Vec<ClassDraft>, Memory>
    ensures { IfOk result (λ taken. taken.items ≡ at_places places.now classes.items) }
{
    let mut slots = in_slots(alloc, classes)?;
    let mut taken = Vec::with_capacity(alloc, places.len())?;
    for place in places {
        take_one(&mut taken, &mut slots, place)?;
    }
    Ok(taken)
}

/// Classes in the order of names. Where a name stands twice it answers want of memory.
pub fn arranged(
    alloc: Global,
    classes: Vec<ClassDraft>,
    names: &[NameId],
) -> Result<Vec<ClassDraft>, Memory>
    ensures { IfOk result (λ arranged. arranged.items ≡ in_order names.now classes.items) }
{
    let list = listed(alloc, classes)?;
    let places = places_in(alloc, &list, names)?;
    take_at(alloc, list.into_items()?, &places)
}
