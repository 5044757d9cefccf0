// The changes by which a class goes with its methods.
ghost use Rattle.std.specs.Prelude.{◌≡◌, ◌<◌, ◌++◌, length, map, None, IfOk, OnOk};
ghost use Rattle.class_table.specs.Valid.{IsOrderly};
ghost use Rattle.class_table.specs.View.{number_image};
ghost use Rattle.command_model.specs.Commands.{RemoveClass};
ghost use Rattle.command_model.specs.Judged.{first_false};
ghost use Rattle.commands.specs.Views.{asked_by};
ghost use Rattle.plans.specs.Plan.{IsPlan};
ghost use Rattle.class_plans.specs.Removed.{is_of_class, methods_of, method_gone, place_of};

use change_set::{Change, Changes};
use class_table::{ClassId, Image, MethodSlot, Place, Slot};
use plans::Plan;
use rb_base::{Memory, NameId};
use std::alloc::Global;

/// Whether a slot holds a live method of the class in a slot, on either side.
fn is_of_class(image: &Image, class: ClassId, slot: MethodSlot) -> bool
    ensures { result ≡ is_of_class image.now class slot }
{
    match image.method_info(slot) {
        None => false,
        Some(info) => class == info.class,
    }
}

/// Puts at the end that each method of the class goes, and the places of these methods.
fn put_methods_gone(
    image: &Image,
    class: ClassId,
    changes: &mut Changes,
    touched: &mut Vec<Place>,
) -> Result<(), Memory>
    ensures changes { OnOk result (changes.new ≡ changes.old ++ map method_gone (methods_of image.now class)) }
    ensures touched { OnOk result (touched.new.items ≡ touched.old.items ++ map place_of (methods_of image.now class)) }
{
    for slot in image.methods() {
        if is_of_class(image, class, *slot) {
            changes.push(Change::Live {
                what: Slot::Method(*slot),
                place: None,
            })?;
            touched.push(Place::Method(*slot))?;
        }
    }
    Ok(())
}

/// The changes by which the class goes with its methods, where no condition of that command is false. The error is want of
/// memory.
pub fn plan_class_removal(alloc: Global, image: &Image, class: NameId) -> Result<Plan, Memory>
    requires orderly { IsOrderly image.now }
    requires known { class < length image.now.names }
    requires holds { first_false (asked_by image.now.names) (number_image image.now) (RemoveClass class) ≡ None }
    ensures { IfOk result (λ found. IsPlan image.now (RemoveClass class) found.changes found.touched.items) }
{
    let mut changes = Changes::new(alloc);
    let mut touched = Vec::new(alloc);
    let Some(id) = image.class_named(class) else {
        return Ok(Plan { changes, touched });
    };
    put_methods_gone(image, id, &mut changes, &mut touched)?;
    changes.push(Change::Live {
        what: Slot::Class(id),
        place: None,
    })?;
    Ok(Plan { changes, touched })
}
