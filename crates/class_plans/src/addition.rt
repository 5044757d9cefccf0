// The changes by which a class comes.
ghost use Rattle.std.specs.Prelude.{◌≡◌, ◌<◌, ◌++◌, [], length, position, None, IfOk, OnOk};
ghost use Rattle.std.specs.List.{filter_map};
ghost use Rattle.class_table.specs.Valid.{IsOrderly};
ghost use Rattle.class_table.specs.View.{number_image};
ghost use Rattle.command_model.specs.Commands.{AddClass};
ghost use Rattle.command_model.specs.Judged.{first_false};
ghost use Rattle.command_numbers.specs.CommandNames.{CommandNames};
ghost use Rattle.commands.specs.Views.{asked_by};
ghost use Rattle.plans.specs.Plan.{IsPlan};
ghost use Rattle.wider_slots.specs.Closed.{IsClosed};
ghost use Rattle.wider_slots.specs.Wider.{Wider};
ghost use Rattle.class_plans.specs.Added.{new_record, is_one_of, record_under, moved_under, class_comes};

use change_set::{Change, Changes};
use class_table::{ClassId, ClassRec, Image, Slot};
use commands::NewClass;
use name_meanings::is_among;
use plans::Plan;
use rb_base::{Ids, Memory, Text};
use slot_room::room_for_class;
use std::alloc::Global;

/// The class as it comes.
fn new_record(alloc: Global, image: &Image, new: &NewClass) -> ClassRec
    ensures { result ≡ new_record image.now new.now.name new.now.superclass }
{
    ClassRec {
        name: new.name,
        superclass: image.class_named(new.superclass),
        instance: Ids::new(alloc),
        shared: Ids::new(alloc),
        class_side: Ids::new(alloc),
        category: Text::new(alloc),
        comment: Text::new(alloc),
        kernel: false,
    }
}

/// Whether a slot holds a live class of one of the names.
fn is_one_of(image: &Image, names: &Ids, id: ClassId) -> bool
    ensures { result ≡ is_one_of image.now names.now id }
{
    match image.class_rec(id) {
        None => false,
        Some(rec) => is_among(names.as_slice(), rec.name),
    }
}

/// The place of the first class of these names in the order of the live ones.
fn first_of(image: &Image, names: &Ids) -> Option<usize>
    ensures { result ≡ position (is_one_of image.now names.now) image.now.class_order }
{
    image
        .classes()
        .iter()
        .position(|id| is_one_of(image, names, *id))
}

/// A copy of the live class in a slot that stands under another one, if it is one of these names.
fn record_under(
    alloc: Global,
    image: &Image,
    names: &Ids,
    superclass: ClassId,
    id: ClassId,
) -> Result<Option<ClassRec>, Memory>
    ensures { IfOk result (λ found. found ≡ record_under image.now names.now superclass id) }
{
    let Some(rec) = image.class_rec(id) else {
        return Ok(None);
    };
    if !is_among(names.as_slice(), rec.name) {
        return Ok(None);
    }
    Ok(Some(ClassRec {
        name: rec.name,
        superclass: Some(superclass),
        instance: rec.instance.try_copy(alloc)?,
        shared: rec.shared.try_copy(alloc)?,
        class_side: rec.class_side.try_copy(alloc)?,
        category: rec.category.try_copy(alloc)?,
        comment: rec.comment.try_copy(alloc)?,
        kernel: rec.kernel,
    }))
}

/// Puts at the end that each class of these names comes under the class in a slot.
fn put_moves(
    alloc: Global,
    image: &Image,
    names: &Ids,
    superclass: ClassId,
    changes: &mut Changes,
) -> Result<(), Memory>
    ensures { OnOk result (changes.new ≡ changes.old ++ filter_map (moved_under image.now names.now superclass) image.now.class_order) }
{
    for id in image.classes() {
        if let Some(rec) = record_under(alloc, image, names, superclass, *id)? {
            changes.push(Change::Class { id: *id, rec })?;
        }
    }
    Ok(())
}

/// The changes by which the class in a slot that is not live comes, and classes of these names come under it.
fn plan_in_room(alloc: Global, image: &Image, under: &Ids, id: ClassId) -> Result<Plan, Memory>
    ensures changes { IfOk result (λ found. found.changes ≡ class_comes image.now under.now id) }
    ensures touched { IfOk result (λ found. found.touched.items ≡ []) }
{
    let place = first_of(image, under).unwrap_or(image.classes().len());
    let mut changes = Changes::new(alloc);
    changes.push(Change::Live {
        what: Slot::Class(id),
        place: Some(place),
    })?;
    put_moves(alloc, image, under, id, &mut changes)?;
    Ok(Plan {
        changes,
        touched: Vec::new(alloc),
    })
}

/// Room for the class, and the changes by which it comes and the direct subclasses that it gets come under it, where no
/// condition of that command is false. The error is want of memory; the image shows the same then, as it does with the room.
pub fn plan_new_class(alloc: Global, image: &mut Image, new: &NewClass) -> Result<Plan, Memory>
    requires closed { IsClosed image.old }
    requires orderly { IsOrderly image.old }
    requires known { CommandNames (λ n. n < length image.old.names) (AddClass new.now.name new.now.superclass new.now.under) }
    requires holds { first_false (asked_by image.old.names) (number_image image.old) (AddClass new.now.name new.now.superclass new.now.under) ≡ None }
    ensures wider { Wider image.old image.new }
    ensures names { image.new.names ≡ image.old.names }
    ensures plan { IfOk result (λ found. IsPlan image.new (AddClass new.now.name new.now.superclass new.now.under) found.changes found.touched.items) }
{
    let rec = new_record(alloc, image, new);
    let Ok(id) = room_for_class(image, rec) else {
        return Err(Memory);
    };
    plan_in_room(alloc, image, &new.under, id)
}
