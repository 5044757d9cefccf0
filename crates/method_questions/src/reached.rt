// Whether messages reach a class.
ghost use Rattle.std.specs.Prelude.{◌≡◌, IfOk};
ghost use Rattle.std.specs.List.{list_any};
ghost use Rattle.image_model.specs.Words.{number_words};
ghost use Rattle.class_table.specs.declared.record.Place.TheVariants as place;
ghost use Rattle.class_table.specs.Valid.{IsOrderly};
ghost use Rattle.class_table.specs.View.{number_image};
ghost use Rattle.command_model.specs.MethodConditions as model;
ghost use Rattle.commands.specs.Views.{asked_by};
ghost use Rattle.reference_index.specs.Mentioned.{IsIndexOf};
ghost use Rattle.method_questions.specs.Reached.{is_child, begins_at};

use crate::supers::{Sought, stands_in};
use class_table::{ClassId, Image, MethodSlot, Place};
use rb_base::{Memory, NameId, Steps};
use reference_index::Index;
use std::alloc::Global;
use std::sync::ledger::Ledger;
use use_questions::is_class_used;

/// Whether the superclass of the class is that of the name.
pub fn is_child(image: &Image, class: ClassId, name: NameId) -> bool
    ensures { result ≡ is_child image.now class name }
{
    let Some(rec) = image.class_rec(class) else {
        return false;
    };
    let Some(above) = rec.superclass else {
        return false;
    };
    match image.class_rec(above) {
        None => false,
        Some(rec) => name == rec.name,
    }
}

/// Whether a message to `super` of the selector begins its look-up in the class of the name, in the method in a slot.
fn begins_in<L: Ledger>(
    alloc: Global,
    image: &Image,
    name: NameId,
    selector: NameId,
    slot: MethodSlot,
    steps: &mut Steps<L>,
) -> Result<bool, Memory>
    ensures { IfOk result (λ is. is ≡ begins_at image.now name selector (place.Method slot)) }
{
    let Some(info) = image.method_info(slot) else {
        return Ok(false);
    };
    if !is_child(image, info.class, name) {
        return Ok(false);
    }
    match image.open_body(slot, steps) {
        None => Ok(false),
        Some(tree) => stands_in(alloc, image.names(), tree, &Sought::SentToSuper(selector)),
    }
}

/// The same of a method at one of the places.
fn begins_at<L: Ledger>(
    alloc: Global,
    image: &Image,
    name: NameId,
    selector: NameId,
    places: &[Place],
    steps: &mut Steps<L>,
) -> Result<bool, Memory>
    ensures { IfOk result (λ is. is ≡ list_any (begins_at image.now name selector) places.now) }
{
    for place in places {
        if let Place::Method(slot) = *place {
            if begins_in(alloc, image, name, selector, slot, steps)? {
                return Ok(true);
            }
        }
    }
    Ok(false)
}

/// Whether a node means the class of the name, or a message to `super` of the selector begins its look-up in it.
pub(crate) fn is_reached<L: Ledger>(
    alloc: Global,
    image: &Image,
    index: &Index,
    name: NameId,
    selector: NameId,
    steps: &mut Steps<L>,
) -> Result<bool, Memory>
    requires orderly { IsOrderly image.now }
    requires index { IsIndexOf image.now index.now }
    ensures { IfOk result (λ is. is ≡ model.is_reached (number_words image.now.names) (asked_by image.now.names).is_super (number_image image.now) name selector) }
{
    if is_class_used(alloc, image, index, name, steps)? {
        return Ok(true);
    }
    begins_at(alloc, image, name, selector, index.listed(selector), steps)
}
