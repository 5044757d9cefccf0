// Methods that go down to the direct subclasses.
ghost use Rattle.std.specs.Prelude.{◌≡◌, ◌<◌, ◌∷◌, [], ◌++◌, length, Some, None, IfOk, OnOk};
ghost use Rattle.std.specs.Option.{option_map_or};
ghost use Rattle.class_table.specs.declared.record.MethodRec.{MethodRec};
ghost use Rattle.class_table.specs.declared.record.Place.TheVariants as places;
ghost use Rattle.class_table.specs.declared.record.Slot.TheVariants as slots;
ghost use Rattle.class_table.specs.Valid.{IsLive, IsOrderly};
ghost use Rattle.class_table.specs.View.{number_image};
ghost use Rattle.change_set.specs.declared.change.Change.TheVariants as change;
ghost use Rattle.wider_slots.specs.Closed.{IsClosed};
ghost use Rattle.wider_slots.specs.Wider.{Wider};
ghost use Rattle.command_model.specs.Commands.{PushDownMethod};
ghost use Rattle.command_model.specs.Judged.{first_false};
ghost use Rattle.commands.specs.Views.{asked_by};
ghost use Rattle.plans.specs.Plan.{IsPlan};
ghost use Rattle.reference_index.specs.Mentioned.{IsIndexOf};
ghost use Rattle.method_plans.specs.Named as named;

use crate::copies::copy_for;
use crate::going::put_live;
use change_set::Changes;
use class_table::{ClassId, ClassIds, Image, MethodSlot};
use commands::MethodName;
use hierarchy_questions::own_method;
use plans::Plan;
use rb_base::Memory;
use reference_index::Index;
use slot_room::room_for_method;
use std::alloc::Global;
use users_methods::{is_listed, named_slots};

/// Whether there is such a method.
fn has_method(image: &Image, method: MethodName) -> bool
    requires { IsOrderly image.now }
    ensures { result ≡ named.has_method image.now method }
{
    own_method(image, method).is_some()
}

/// Whether the slot is that of a direct subclass that has no such method of its own.
fn receives(image: &Image, class: ClassId, method: &MethodName) -> bool
    requires { IsOrderly image.now }
    ensures { result ≡ named.receives image.now method.now class }
{
    let Some(rec) = image.class_rec(class) else {
        return false;
    };
    let Some(above) = rec.superclass else {
        return false;
    };
    let Some(above) = image.class_rec(above) else {
        return false;
    };
    let own = MethodName {
        class: rec.name,
        ..*method
    };
    method.class == above.name && !has_method(image, own)
}

/// The direct subclasses that have no such method of their own, in the order of classes.
fn receivers(alloc: Global, image: &Image, method: &MethodName) -> Result<ClassIds, Memory>
    requires { IsOrderly image.now }
    ensures { IfOk result (λ found. found ≡ named.receivers image.now method.now) }
{
    let mut found = ClassIds::new(alloc);
    for class in image.classes() {
        if receives(image, *class, method) {
            found.push(*class)?;
        }
    }
    Ok(found)
}

/// Room for a copy of the method in a live slot as one of a class, and the change by which the copy comes to a place.
#[tactic(auto, using(crate::proofs::Added::wider_same))]
fn put_copy(
    alloc: Global,
    image: &mut Image,
    slot: MethodSlot,
    class: ClassId,
    place: usize,
    plan: &mut Plan,
) -> Result<(), Memory>
    requires closed { IsClosed image.old }
    requires orderly { IsOrderly image.old }
    requires class { IsLive image.old.class_order class }
    ensures wider { Wider image.old image.new }
    ensures names { image.new.names ≡ image.old.names }
    ensures image { OnOk result (image.new ≡ named.with_copy image.old class slot) }
    ensures changes { OnOk result (plan.new.changes ≡ plan.old.changes ++ option_map_or (λ (m : MethodRec). change.Live (slots.Method (length image.old.methods)) (Some place) ∷ []) (named.moved_to image.old class slot) []) }
    ensures touched { OnOk result (plan.new.touched.items ≡ plan.old.touched.items ++ option_map_or (λ (m : MethodRec). places.Method (length image.old.methods) ∷ []) (named.moved_to image.old class slot) []) }
{
    let Some(rec) = copy_for(alloc, image, slot, class)? else {
        return Ok(());
    };
    let Ok(new) = room_for_method(image, rec) else {
        return Err(Memory);
    };
    put_live(plan, new, Some(place))
}

/// Room for the copies, and the changes by which the method goes down: a copy for each direct subclass without one of its
/// own stands at its place. On want of memory the image shows the same.
#[tactic(auto, using(crate::proofs::Added::wider_same))]
pub fn plan_method_down(
    alloc: Global,
    image: &mut Image,
    index: &Index,
    method: MethodName,
) -> Result<Plan, Memory>
    requires closed { IsClosed image.old }
    requires orderly { IsOrderly image.old }
    requires index { IsIndexOf image.old index.now }
    requires holds { first_false (asked_by image.old.names) (number_image image.old) (PushDownMethod method.class method.meta method.selector) ≡ None }
    ensures wider { Wider image.old image.new }
    ensures names { image.new.names ≡ image.old.names }
    ensures plan { IfOk result (λ found. IsPlan image.new (PushDownMethod method.class method.meta method.selector) found.changes found.touched.items) }
{
    let found = receivers(alloc, image, &method)?;
    let classes = found.as_slice();
    let slots = named_slots(alloc, image, index, &method)?;
    let named = slots.as_slice();
    let mut plan = Plan {
        changes: Changes::new(alloc),
        touched: Vec::new(alloc),
    };
    // From the last place on, so that the places before it stay.
    let mut place = image.methods().len();
    while place > 0 {
        place -= 1;
        let slot = image.methods()[place];
        if !is_listed(named, slot) {
            continue;
        }
        put_live(&mut plan, slot, None)?;
        // From the last class on too, since each copy comes before those that are there.
        let mut left = classes.len();
        while left > 0 {
            left -= 1;
            put_copy(alloc, image, slot, classes[left], place, &mut plan)?;
        }
    }
    Ok(plan)
}
