// Keys that two lists have in common, and how these pair up in order.

ghost use Rattle.std.specs.Prelude.{◌≡◌, not, slice_get, IfOk};
ghost use Rattle.change_file.specs.Partners.{is_listed, places_from, partners, partner_at};

use rb_base::{Memory, NameId, Names};
use std::alloc::Global;

/// The places of the keys that the others have too.
fn shared_places(alloc: Global, keys: &Names, others: &Names) -> Result<Vec<usize>, Memory>
    ensures { IfOk result (λ places. places.items ≡ places_from 0 (is_listed others.now) keys.now) }
{
    let mut places = Vec::new(alloc);
    for number in 0..keys.len() {
        if others.find(keys.text_of(NameId(number))).is_some() {
            places.push(number)?;
        }
    }
    Ok(places)
}

/// The places of the keys that the others have not.
pub(crate) fn lone_places(alloc: Global, keys: &Names, others: &Names) -> Result<Vec<usize>, Memory>
    ensures { IfOk result (λ places. places.items ≡ places_from 0 (λ key. not (is_listed others.now key)) keys.now) }
{
    let mut places = Vec::new(alloc);
    for number in 0..keys.len() {
        if others.find(keys.text_of(NameId(number))).is_none() {
            places.push(number)?;
        }
    }
    Ok(places)
}

/// The place of a number in a list of places, if there are so many.
fn place_at(places: &[usize], number: usize) -> Option<usize>
    ensures { result ≡ slice_get places.now number }
{
    places.get(number).copied()
}

/// For each key that the others have too, the place among them of the one that is as many-th of those that both lists have;
/// `None` for each other key.
pub(crate) fn partners(
    alloc: Global,
    keys: &Names,
    others: &Names,
) -> Result<Vec<Option<usize>>, Memory>
    ensures { IfOk result (λ found. found.items ≡ partners keys.now others.now) }
{
    let shared = shared_places(alloc, others, keys)?;
    let mut found = Vec::new(alloc);
    let mut next = 0;
    for number in 0..keys.len() {
        if others.find(keys.text_of(NameId(number))).is_some() {
            found.push(place_at(shared.as_slice(), next))?;
            next += 1;
        } else {
            found.push(None)?;
        }
    }
    Ok(found)
}

/// The partner of the key at a place.
pub(crate) fn partner_at(partners: &[Option<usize>], place: usize) -> Option<usize>
    ensures { result ≡ partner_at partners.now place }
{
    *partners.get(place)?
}
