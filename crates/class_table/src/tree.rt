// The classes below a class.
ghost use Rattle.std.specs.Prelude.{◌≡◌, ◌<◌, ◌||◌, length, nat_eq, slice_get, slice_set, true, false, unwrap_or, vec_len, IfOk};
ghost use Rattle.std.specs.Option.{option_map_or};
ghost use Rattle.class_table.specs.Order.{IsOrderOf};
ghost use Rattle.class_table.specs.Valid.{SuperclassesFirst};
ghost use Rattle.class_table.specs.Finding.{superclass_in, tree_in};

use crate::record::{ClassId, ClassIds, ClassRec};
use rb_base::Memory;
use std::alloc::Global;

/// A class and all below it, in the order of the live classes. One walk over these serves, since each superclass comes
/// before its subclasses.
pub fn classes_below(
    alloc: Global,
    classes: &[ClassRec],
    order: &[ClassId],
    class: ClassId,
) -> Result<ClassIds, Memory>
    requires first { SuperclassesFirst classes.now order.now }
    requires order { IsOrderOf (record { items = order.now; slots = length classes.now }) }
    ensures { IfOk result (λ found. found ≡ tree_in classes.now order.now class) }
{
    let mut flags = vec![in alloc; false; classes.len()]?;
    let mut found = ClassIds::new(alloc);
    for id in order {
        if is_below(classes, &flags, class, *id) {
            flag(&mut flags, *id);
            found.push(*id)?;
        }
    }
    Ok(found)
}

fn is_below(classes: &[ClassRec], flags: &[bool], class: ClassId, id: ClassId) -> bool
    ensures { result ≡ (nat_eq class id || option_map_or (λ k. unwrap_or (slice_get flags.now k) false) (superclass_in classes.now id) false) }
{
    class == id || is_flagged(flags, superclass_in(classes, id))
}

fn superclass_in(classes: &[ClassRec], id: ClassId) -> Option<ClassId>
    ensures { result ≡ superclass_in classes.now id }
{
    classes.get(id.0)?.superclass
}

fn is_flagged(flags: &[bool], id: Option<ClassId>) -> bool
    ensures { result ≡ option_map_or (λ k. unwrap_or (slice_get flags.now k) false) id false }
{
    match id {
        None => false,
        Some(id) => flags.get(id.0).copied().unwrap_or(false),
    }
}

fn flag(flags: &mut Vec<bool>, id: ClassId)
    requires { id < vec_len flags.old }
    ensures { flags.new.items ≡ slice_set flags.old.items id true }
{
    flags[id.0] = true;
}
