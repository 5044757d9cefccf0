// Methods that come and go.
ghost use Rattle.std.specs.Prelude.{◌≡◌, ◌<◌, ◌∷◌, [], ◌++◌, length, None, IfOk, OnOk};
ghost use Rattle.class_table.specs.declared.record.Place.TheVariants as places;
ghost use Rattle.class_table.specs.declared.record.Slot.TheVariants as slots;
ghost use Rattle.class_table.specs.Valid.{IsOrderly};
ghost use Rattle.class_table.specs.View.{number_image};
ghost use Rattle.change_set.specs.declared.change.Change.TheVariants as change;
ghost use Rattle.st_tree.specs.View.{method_of};
ghost use Rattle.wider_slots.specs.Closed.{IsClosed};
ghost use Rattle.wider_slots.specs.Wider.{Wider};
ghost use Rattle.command_model.specs.Commands.{AddMethod, RemoveMethod};
ghost use Rattle.command_model.specs.Judged.{first_false};
ghost use Rattle.command_numbers.specs.CommandNames.{CommandNames};
ghost use Rattle.commands.specs.Views.{asked_by};
ghost use Rattle.plans.specs.Plan.{IsPlan};
ghost use Rattle.reference_index.specs.Mentioned.{IsIndexOf};

use change_set::{Change, Changes};
use class_table::{Image, MethodRec, MethodSlot, Place, Slot};
use commands::{MethodName, NewMethod};
use plans::Plan;
use rb_base::Memory;
use reference_index::Index;
use slot_room::room_for_method;
use st_tree::try_copy;
use std::alloc::Global;
use users_methods::{is_listed, named_slots};

/// Puts the change by which a method comes to a place of the order, or goes, at the end of a plan. Want of memory, if there is
/// not enough of it for a longer plan.
pub fn put_live(plan: &mut Plan, slot: MethodSlot, place: Option<usize>) -> Result<(), Memory>
    ensures changes { OnOk result (plan.new.changes ≡ plan.old.changes ++ change.Live (slots.Method slot) place ∷ []) }
    ensures touched { OnOk result (plan.new.touched.items ≡ plan.old.touched.items ++ places.Method slot ∷ []) }
{
    plan.changes.push(Change::Live {
        what: Slot::Method(slot),
        place,
    })?;
    plan.touched.push(Place::Method(slot))?;
    Ok(())
}

/// The changes by which the method goes.
pub fn plan_method_removal(
    alloc: Global,
    image: &Image,
    index: &Index,
    method: MethodName,
) -> Result<Plan, Memory>
    requires orderly { IsOrderly image.now }
    requires index { IsIndexOf image.now index.now }
    requires holds { first_false (asked_by image.now.names) (number_image image.now) (RemoveMethod method.class method.meta method.selector) ≡ None }
    ensures { IfOk result (λ found. IsPlan image.now (RemoveMethod method.class method.meta method.selector) found.changes found.touched.items) }
{
    let found = named_slots(alloc, image, index, &method)?;
    let named = found.as_slice();
    let mut plan = Plan {
        changes: Changes::new(alloc),
        touched: Vec::new(alloc),
    };
    for slot in image.methods() {
        if is_listed(named, *slot) {
            put_live(&mut plan, *slot, None)?;
        }
    }
    Ok(plan)
}

/// Room for the method, and the changes by which it comes, as the last one. On want of memory the image shows the same.
#[tactic(auto, using(crate::proofs::Added::wider_same))]
pub fn plan_new_method(alloc: Global, image: &mut Image, new: &NewMethod) -> Result<Plan, Memory>
    requires closed { IsClosed image.old }
    requires orderly { IsOrderly image.old }
    requires known { CommandNames (λ n. n < length image.old.names) (AddMethod new.now.class new.now.meta new.now.protocol new.now.source (method_of new.now.tree)) }
    requires holds { first_false (asked_by image.old.names) (number_image image.old) (AddMethod new.now.class new.now.meta new.now.protocol new.now.source (method_of new.now.tree)) ≡ None }
    ensures wider { Wider image.old image.new }
    ensures names { image.new.names ≡ image.old.names }
    ensures plan { IfOk result (λ found. IsPlan image.new (AddMethod new.now.class new.now.meta new.now.protocol new.now.source (method_of new.now.tree)) found.changes found.touched.items) }
{
    let mut plan = Plan {
        changes: Changes::new(alloc),
        touched: Vec::new(alloc),
    };
    // The class is one of the user, so it is found.
    let Some(class) = image.class_named(new.class) else {
        return Ok(plan);
    };
    let rec = MethodRec {
        class,
        meta: new.meta,
        protocol: new.protocol.try_copy(alloc)?,
        source: new.source.try_copy(alloc)?,
        tree: try_copy(alloc, &new.tree)?,
        kernel: false,
    };
    let place = image.methods().len();
    let Ok(slot) = room_for_method(image, rec) else {
        return Err(Memory);
    };
    put_live(&mut plan, slot, Some(place))?;
    Ok(plan)
}
