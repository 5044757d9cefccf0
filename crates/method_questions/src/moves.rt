// Which method each class finds once a method comes, goes up or goes down.
ghost use Rattle.std.specs.Prelude.{◌≡◌, nat_eq, IfOk};
ghost use Rattle.std.specs.List.{list_any, filter_map};
ghost use Rattle.method_questions.specs.Moves.{there, comes_first, is_below, is_changed, is_concerned, owner_at, is_covered, own_after, first_after, found_after};

use crate::found::{Found, own_slot};
use crate::removable::object_slot;
use class_table::{ClassId, Image, MethodSlot, Place};
use rb_base::{Memory, NameId};
use std::alloc::Global;

/// How a method moves.
#[derive(Clone, Copy)]
pub enum Way {
    /// It is one more method of the class, the last.
    New,
    /// It leaves the class for the one above it.
    Up {
        /// The slot of that class.
        above: ClassId,
        /// Whether it stands before the method that the class above has itself, if that has one.
        first: bool,
    },
    /// It leaves the class for its direct subclasses that have none themselves.
    Down,
}

/// A method that moves.
#[derive(Clone, Copy)]
pub struct Moved<'a> {
    /// The method, as one of the class that it leaves, or that gets it where it is new.
    pub method: Found<'a>,
    /// Its selector.
    pub selector: NameId,
    /// How it moves.
    pub way: Way,
}

/// A method that is found once another has moved.
#[derive(Clone, Copy)]
pub(crate) enum After {
    /// The one in a slot, which has not moved.
    There(MethodSlot),
    /// The one that has moved, as one of the class.
    Comes(ClassId),
}

/// The method in a slot, if there is a slot.
fn there(slot: Option<MethodSlot>) -> Option<After>
    ensures { result ≡ there slot }
{
    Some(After::There(slot?))
}

/// Whether the first of two slots stands before the other one, if there is one.
pub(crate) fn comes_first(image: &Image, slot: MethodSlot, other: Option<MethodSlot>) -> bool
    ensures { result ≡ comes_first image.now.method_order slot other }
{
    let Some(other) = other else {
        return true;
    };
    for method in image.methods() {
        if *method == slot {
            return true;
        }
        if *method == other {
            return false;
        }
    }
    false
}

/// Whether the class is a direct subclass of the other.
fn is_below(image: &Image, class: ClassId, other: ClassId) -> bool
    ensures { result ≡ is_below image.now class other }
{
    match image.class_rec(class) {
        None => false,
        Some(rec) => match rec.superclass {
            None => false,
            Some(above) => other == above,
        },
    }
}

/// Whether the class itself may have another method afterwards.
#[tactic(auto, unfolding(crate::specs::Moves::is_changed))]
fn is_changed(image: &Image, moved: &Moved<'_>, class: ClassId) -> bool
    ensures { result ≡ is_changed image.now moved.now class }
{
    let is_left = class == moved.method.class;
    match moved.way {
        Way::New => is_left,
        Way::Up { above, .. } => is_left || class == above,
        Way::Down => is_left || is_below(image, class, moved.method.class),
    }
}

/// Whether the class or one above it may. Only then can a message find another method in it.
pub(crate) fn is_concerned(image: &Image, moved: &Moved<'_>, class: ClassId) -> bool
    ensures { result ≡ is_concerned image.now moved.now class }
{
    let mut at = Some(class);
    let mut left = image.classes().len();
    while left > 0 {
        let Some(class) = at else {
            return false;
        };
        if is_changed(image, moved, class) {
            return true;
        }
        at = image.chain_at(class, 1);
        left -= 1;
    }
    false
}

/// The class of the method at a place, if it is one for the selector on a side.
fn owner(image: &Image, place: Place, meta: bool, selector: NameId) -> Option<ClassId>
    ensures { result ≡ owner_at image.now meta selector place }
{
    let Place::Method(slot) = place else {
        return None;
    };
    let Some(info) = image.method_info(slot) else {
        return None;
    };
    if info.meta == meta && info.selector == selector {
        Some(info.class)
    } else {
        None
    }
}

/// The classes of the methods at these places that are for the selector on a side.
pub fn owners(
    alloc: Global,
    image: &Image,
    places: &[Place],
    meta: bool,
    selector: NameId,
) -> Result<Vec<ClassId>, Memory>
    ensures { IfOk result (λ found. found.items ≡ filter_map (owner_at image.now meta selector) places.now) }
{
    let found = places
        .iter()
        .filter_map(|place| owner(image, *place, meta, selector))
        .collect(alloc)?;
    Ok(found)
}

/// Whether the class is one of these.
fn is_among(classes: &[ClassId], class: ClassId) -> bool
    ensures { result ≡ list_any (nat_eq class) classes.now }
{
    classes.iter().any(|other| class == *other)
}

/// Whether the class or one above it is one of the owners, and none up to it may have another method: the class then finds
/// the same method afterwards.
pub(crate) fn is_covered(
    image: &Image,
    moved: &Moved<'_>,
    owners: &[ClassId],
    class: ClassId,
) -> bool
    ensures { result ≡ is_covered image.now moved.now owners.now class }
{
    let mut at = Some(class);
    let mut left = image.classes().len();
    while left > 0 {
        let Some(class) = at else {
            return false;
        };
        if is_changed(image, moved, class) {
            return false;
        }
        if is_among(owners, class) {
            return true;
        }
        at = image.chain_at(class, 1);
        left -= 1;
    }
    false
}

/// The method that the class itself has afterwards.
#[tactic(auto, unfolding(crate::specs::Moves::own_after))]
fn own_after(image: &Image, moved: &Moved<'_>, class: ClassId) -> Option<After>
    ensures { result ≡ own_after image.now moved.now class }
{
    let own = there(own_slot(image, class, moved.method.meta, moved.selector));
    let is_left = class == moved.method.class;
    match moved.way {
        Way::New => {
            if own.is_none() && is_left {
                return Some(After::Comes(class));
            }
            own
        }
        Way::Up { above, first } => {
            if class == above {
                return if first {
                    Some(After::Comes(class))
                } else {
                    own
                };
            }
            if is_left { None } else { own }
        }
        Way::Down => {
            if is_left {
                return None;
            }
            if own.is_none() && is_below(image, class, moved.method.class) {
                return Some(After::Comes(class));
            }
            own
        }
    }
}

/// The method that the class or the nearest one above it has afterwards.
fn first_after(image: &Image, moved: &Moved<'_>, class: ClassId) -> Option<After>
    ensures { result ≡ first_after image.now moved.now class }
{
    let mut at = Some(class);
    let mut left = image.classes().len();
    while left > 0 {
        let class = at?;
        let found = own_after(image, moved, class);
        if found.is_some() {
            return found;
        }
        at = image.chain_at(class, 1);
        left -= 1;
    }
    None
}

/// The method that a message with the selector of the moved method runs in the class afterwards, on its side.
pub(crate) fn found_after(image: &Image, moved: &Moved<'_>, class: ClassId) -> Option<After>
    ensures { result ≡ found_after image.now moved.now class }
{
    let found = first_after(image, moved, class);
    if found.is_some() || !moved.method.meta {
        return found;
    }
    there(object_slot(image, moved.selector))
}
