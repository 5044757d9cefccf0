// Classes that are put in again at their places.
ghost use Rattle.std.specs.Prelude.{◌≡◌, ℕ, reverse, nat_eq, if◌then◌else◌, Some, IfOk, OnOk};
ghost use Rattle.std.specs.HashMap.{get};
ghost use Rattle.image_model.specs.Image.{ClassOf};
ghost use Rattle.file_model.specs.Places.{class_place, put_again_behind};
ghost use Rattle.draft_orders.specs.Parts.{IsAdded, IsSplit};
ghost use Rattle.draft_orders.specs.Tables.{IsClassPlaces};

use crate::parts::Parts;
use crate::places::ClassPlace;
use image_draft::ClassDraft;
use rb_base::{Memory, NameId};
use std::alloc::Global;
use std::collections::HashMap;

/// Notes a place under the name of its class, in place of an earlier one.
fn note(table: &mut HashMap<usize, usize>, stated: ClassPlace) -> Result<(), Memory>
    ensures { OnOk result ((n : ℕ) → get nat_eq table.new n ≡ (if nat_eq stated.class n then Some stated.place else get nat_eq table.old n)) }
{
    table.insert(stated.class.0, stated.place)?;
    Ok(())
}

/// The last place that is stated for each name.
fn place_table(alloc: Global, places: &[ClassPlace]) -> Result<HashMap<usize, usize>, Memory>
    ensures { IfOk result (λ table. IsClassPlaces places.now table) }
{
    let mut table = HashMap::new(alloc);
    for stated in places {
        note(&mut table, *stated)?;
    }
    Ok(table)
}

/// The place of a name.
fn place_of(table: &HashMap<usize, usize>, name: NameId) -> Option<usize>
    ensures { result ≡ get nat_eq table.now name }
{
    table.get(&name.0).copied()
}

/// Puts a class at the end of its part.
fn add(
    parts: &mut Parts<ClassDraft>,
    table: &HashMap<usize, usize>,
    class: ClassDraft,
) -> Result<(), Memory>
    ensures { OnOk result (IsAdded parts.old class.kernel (get nat_eq table.now class.name) class parts.new) }
{
    let kernel = class.kernel;
    let place = place_of(table, class.name);
    parts.add(kernel, place, class)
}

/// The classes of the kernel, those with a place, and those without one.
fn split(
    alloc: Global,
    classes: Vec<ClassDraft>,
    table: &HashMap<usize, usize>,
) -> Result<Parts<ClassDraft>, Memory>
    ensures { IfOk result (λ parts. IsSplit (λ (c : ClassOf ℕ). c.kernel) (λ c. get nat_eq table.now c.name) classes.items parts) }
{
    let mut parts = Parts::new(alloc);
    for class in classes {
        add(&mut parts, table, class)?;
    }
    Ok(parts)
}

/// The classes, of which those of the user that have a place are put in again at it. The places stand in the order in which
/// they were stated, and the last one for a class counts.
pub fn put_classes_again(
    alloc: Global,
    classes: Vec<ClassDraft>,
    places: &[ClassPlace],
) -> Result<Vec<ClassDraft>, Memory>
    ensures { IfOk result (λ again. again.items ≡ put_again_behind (λ (c : ClassOf ℕ). c.kernel) (class_place nat_eq (reverse places.now)) classes.items) }
{
    let table = place_table(alloc, places)?;
    split(alloc, classes, &table)?.join(alloc)
}
