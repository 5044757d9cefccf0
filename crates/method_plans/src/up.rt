// Methods that go up to the superclass.
ghost use Rattle.std.specs.Prelude.{◌≡◌, ◌∷◌, [], ◌++◌, None, IfOk, OnOk};
ghost use Rattle.std.specs.Option.{option_map_or};
ghost use Rattle.class_table.specs.declared.record.MethodRec.{MethodRec};
ghost use Rattle.class_table.specs.Valid.{IsOrderly};
ghost use Rattle.class_table.specs.View.{number_image};
ghost use Rattle.change_set.specs.declared.change.Change.TheVariants as change;
ghost use Rattle.command_model.specs.Commands.{PushUpMethod};
ghost use Rattle.command_model.specs.Judged.{first_false};
ghost use Rattle.commands.specs.Views.{asked_by};
ghost use Rattle.plans.specs.Plan.{IsPlan};
ghost use Rattle.reference_index.specs.Mentioned.{IsIndexOf};
ghost use Rattle.method_plans.specs.Named.{moved_to};

use crate::copies::copy_for;
use crate::named::superclass;
use change_set::{Change, Changes};
use class_table::{ClassId, Image, MethodSlot};
use commands::MethodName;
use plans::Plan;
use rb_base::Memory;
use reference_index::Index;
use std::alloc::Global;
use users_methods::{is_listed, named_slots};

/// Puts the change by which the method in a live slot becomes one of another class at the end.
fn put_moved(
    alloc: Global,
    image: &Image,
    slot: MethodSlot,
    class: ClassId,
    changes: &mut Changes,
) -> Result<(), Memory>
    ensures { OnOk result (changes.new ≡ changes.old ++ option_map_or (λ (m : MethodRec). change.Method slot m ∷ []) (moved_to image.now class slot) []) }
{
    if let Some(rec) = copy_for(alloc, image, slot, class)? {
        changes.push(Change::Method { slot, rec })?;
    }
    Ok(())
}

/// The changes by which the method goes up to the superclass, at its place.
pub fn plan_method_up(
    alloc: Global,
    image: &Image,
    index: &Index,
    method: MethodName,
) -> Result<Plan, Memory>
    requires orderly { IsOrderly image.now }
    requires index { IsIndexOf image.now index.now }
    requires holds { first_false (asked_by image.now.names) (number_image image.now) (PushUpMethod method.class method.meta method.selector) ≡ None }
    ensures { IfOk result (λ found. IsPlan image.now (PushUpMethod method.class method.meta method.selector) found.changes found.touched.items) }
{
    let mut plan = Plan {
        changes: Changes::new(alloc),
        touched: Vec::new(alloc),
    };
    let Some(class) = superclass(image, method.class) else {
        return Ok(plan);
    };
    let found = named_slots(alloc, image, index, &method)?;
    let named = found.as_slice();
    for slot in image.methods() {
        if is_listed(named, *slot) {
            put_moved(alloc, image, *slot, class, &mut plan.changes)?;
        }
    }
    Ok(plan)
}
