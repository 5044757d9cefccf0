// Methods that are put in again at their places.
ghost use Rattle.std.specs.Prelude.{◌≡◌, ℕ, map, reverse, nat_eq, if◌then◌else◌, Some, IfOk, OnOk};
ghost use Rattle.std.specs.HashMap.{get};
ghost use Rattle.image_model.specs.Image.{EntryOf};
ghost use Rattle.file_model.specs.Places.{method_place, put_again_behind};
ghost use Rattle.image_draft.specs.Entries.{entry_of};
ghost use Rattle.image_draft.specs.declared.method_draft.MethodDraft.{MethodDraft};
ghost use Rattle.draft_orders.specs.Parts.{IsAdded, IsSplit};
ghost use Rattle.draft_orders.specs.Tables.{same_key, stated_key, key_of, IsMethodPlaces};

use crate::parts::Parts;
use crate::places::MethodPlace;
use image_draft::MethodDraft;
use rb_base::Memory;
use std::alloc::Global;
use std::collections::HashMap;

/// What tells a method: the number of the name of its class, its side, and the number of its selector.
#[derive(Clone, Copy, PartialEq, Eq, Hash)]
pub struct PlaceKey {
    pub class: usize,
    pub meta: bool,
    pub selector: usize,
}

/// Notes a place under the key of its method, in place of an earlier one.
fn note(table: &mut HashMap<PlaceKey, usize>, stated: MethodPlace) -> Result<(), Memory>
    ensures { OnOk result ((q : PlaceKey) → get same_key table.new q ≡ (if same_key (stated_key stated) q then Some stated.place else get same_key table.old q)) }
{
    let key = PlaceKey {
        class: stated.class.0,
        meta: stated.meta,
        selector: stated.selector.0,
    };
    table.insert(key, stated.place)?;
    Ok(())
}

/// The last place that is stated for each method.
fn place_table(alloc: Global, places: &[MethodPlace]) -> Result<HashMap<PlaceKey, usize>, Memory>
    ensures { IfOk result (λ table. IsMethodPlaces places.now table) }
{
    let mut table = HashMap::new(alloc);
    for stated in places {
        note(&mut table, *stated)?;
    }
    Ok(table)
}

/// The place of a method.
fn place_of(table: &HashMap<PlaceKey, usize>, method: &MethodDraft) -> Option<usize>
    ensures { result ≡ get same_key table.now (key_of method.now) }
{
    let key = PlaceKey {
        class: method.class.0,
        meta: method.meta,
        selector: method.tree.selector.0,
    };
    table.get(&key).copied()
}

/// Puts a method at the end of its part.
fn add(
    parts: &mut Parts<MethodDraft>,
    table: &HashMap<PlaceKey, usize>,
    method: MethodDraft,
) -> Result<(), Memory>
    ensures { OnOk result (IsAdded parts.old method.kernel (get same_key table.now (key_of method)) method parts.new) }
{
    let kernel = method.kernel;
    let place = place_of(table, &method);
    parts.add(kernel, place, method)
}

/// The methods of the kernel, those with a place, and those without one.
fn split(
    alloc: Global,
    methods: Vec<MethodDraft>,
    table: &HashMap<PlaceKey, usize>,
) -> Result<Parts<MethodDraft>, Memory>
    ensures { IfOk result (λ parts. IsSplit (λ (m : MethodDraft). m.kernel) (λ m. get same_key table.now (key_of m)) methods.items parts) }
{
    let mut parts = Parts::new(alloc);
    for method in methods {
        add(&mut parts, table, method)?;
    }
    Ok(parts)
}

/// The methods, of which those of the user that have a place are put in again at it. The places stand in the order in which
/// they were stated, and the last one for a method counts.
pub fn put_methods_again(
    alloc: Global,
    methods: Vec<MethodDraft>,
    places: &[MethodPlace],
) -> Result<Vec<MethodDraft>, Memory>
    ensures { IfOk result (λ again. map entry_of again.items ≡ put_again_behind (λ (m : EntryOf ℕ). m.kernel) (method_place nat_eq (reverse places.now)) (map entry_of methods.items)) }
{
    let table = place_table(alloc, places)?;
    split(alloc, methods, &table)?.join(alloc)
}
