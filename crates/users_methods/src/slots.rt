// The slots that hold the methods of a class, a side and a selector.
ghost use Rattle.std.specs.Prelude.{◌≡◌, ℕ, nat_eq, IfOk};
ghost use Rattle.std.specs.List.{list_any, filter_map};
ghost use Rattle.class_table.specs.Valid.{IsOrderly};
ghost use Rattle.reference_index.specs.Mentioned.{IsIndexOf};
ghost use Rattle.users_methods.specs.Users.{is_named, is_users, named_at};

use class_table::{Image, MethodSlot, Place};
use commands::MethodName;
use rb_base::Memory;
use reference_index::Index;
use std::alloc::Global;

/// Whether the slot is live and holds the method.
fn is_named(image: &Image, slot: MethodSlot, method: &MethodName) -> bool
    requires { IsOrderly image.now }
    ensures { result ≡ is_named image.now method.now slot }
{
    let Some(info) = image.method_info(slot) else {
        return false;
    };
    let Some(class) = image.class_rec(info.class) else {
        return false;
    };
    method.class == class.name && method.meta == info.meta && method.selector == info.selector
}

/// Whether the slot is live and holds the method, and it is one of the user.
fn is_users(image: &Image, slot: MethodSlot, method: &MethodName) -> bool
    requires { IsOrderly image.now }
    ensures { result ≡ is_users image.now method.now slot }
{
    let Some(info) = image.method_info(slot) else {
        return false;
    };
    !info.kernel && is_named(image, slot, method)
}

/// The slot at a place, if it is live and holds the method.
fn named_at(image: &Image, place: Place, method: &MethodName) -> Option<MethodSlot>
    requires { IsOrderly image.now }
    ensures { result ≡ named_at image.now method.now place }
{
    match place {
        Place::Method(slot) => {
            if is_named(image, slot, method) {
                Some(slot)
            } else {
                None
            }
        }
        Place::DoIt(_) => None,
    }
}

/// The slots at the places that do.
fn slots_at(
    alloc: Global,
    image: &Image,
    places: &[Place],
    method: &MethodName,
) -> Result<Vec<MethodSlot>, Memory>
    requires { IsOrderly image.now }
    ensures { IfOk result (λ found. found.items ≡ filter_map (named_at image.now method.now) places.now) }
{
    let found = places
        .iter()
        .filter_map(|place| named_at(image, *place, method))
        .collect(alloc)?;
    Ok(found)
}

/// The slots that are live and hold the method, in no order that is told. An image that is read has one at most. Looks only at
/// places that mention the selector. Want of memory, if there is not enough of it for the slots.
pub fn named_slots(
    alloc: Global,
    image: &Image,
    index: &Index,
    method: &MethodName,
) -> Result<Vec<MethodSlot>, Memory>
    requires orderly { IsOrderly image.now }
    requires index { IsIndexOf image.now index.now }
    ensures { IfOk result (λ found. (k : ℕ) → list_any (nat_eq k) found.items ≡ is_named image.now method.now k) }
{
    let places = index.listed(method.selector);
    let found = slots_at(alloc, image, places, method)?;
    Ok(found)
}

/// Those of them that hold a method of the user.
pub fn users_slots(
    alloc: Global,
    image: &Image,
    index: &Index,
    method: &MethodName,
) -> Result<Vec<MethodSlot>, Memory>
    requires orderly { IsOrderly image.now }
    requires index { IsIndexOf image.now index.now }
    ensures { IfOk result (λ found. (k : ℕ) → list_any (nat_eq k) found.items ≡ is_users image.now method.now k) }
{
    let mut found = named_slots(alloc, image, index, method)?;
    found.retain(|slot| is_users(image, *slot, method));
    Ok(found)
}

/// Whether the slot is one of these.
pub fn is_listed(slots: &[MethodSlot], slot: MethodSlot) -> bool
    ensures { result ≡ list_any (nat_eq slot) slots.now }
{
    slots.iter().any(|other| slot == *other)
}
