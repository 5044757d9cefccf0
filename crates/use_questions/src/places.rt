// Questions that are asked of places.
ghost use Rattle.std.specs.Prelude.{◌≡◌, ℕ, false, nat_eq, IfOk};
ghost use Rattle.std.specs.List.{list_any};
ghost use Rattle.std.specs.Option.{option_map_or};
ghost use Rattle.image_model.specs.Image.{EntryOf};
ghost use Rattle.class_table.specs.declared.record.Place.TheVariants as place;
ghost use Rattle.class_table.specs.Valid.{IsLive, IsOrderly};
ghost use Rattle.class_table.specs.View.{class_name, number_image};
ghost use Rattle.reference_index.specs.Mentioned.{IsIndexOf};
ghost use Rattle.use_questions.specs.Questions.{is_asked, are_doits_asked, is_place_found, is_found};

use crate::code::in_code;
use crate::question::{Question, Whose};
use class_questions::{Sought, stands_above};
use class_table::{ClassId, Image, MethodInfo, MethodSlot, Place};
use name_meanings::{doit_meaning, method_meaning};
use rb_base::{Memory, NameId, Steps};
use reference_index::Index;
use st_tree::Path;
use std::alloc::Global;
use std::sync::ledger::Ledger;

/// Whether the class in a live slot has the name.
fn has_name(image: &Image, class: ClassId, name: NameId) -> bool
    requires { IsLive image.now.class_order class }
    ensures { result ≡ option_map_or (nat_eq name) (class_name image.now.classes class) false }
{
    match image.class_rec(class) {
        None => false,
        Some(rec) => name == rec.name,
    }
}

/// Whether the method of which this is known is one of those that are asked.
pub fn is_asked(image: &Image, whose: Whose, info: &MethodInfo<'_>) -> bool
    requires orderly { IsOrderly image.now }
    requires live { IsLive image.now.class_order info.now.class }
    ensures { (m : EntryOf ℕ) → m.class ≡ class_name image.now.classes info.now.class → result ≡ is_asked (number_image image.now) whose m }
{
    match whose {
        Whose::Everyone => true,
        Whose::Outside(class) => !has_name(image, info.class, class),
        Whose::Of(class) => has_name(image, info.class, class),
        Whose::Below(class) => stands_above(image, info.class, &Sought::Class(class)),
        Whose::BelowBut { class, except } => {
            stands_above(image, info.class, &Sought::Class(class))
                && !stands_above(image, info.class, &Sought::Class(except))
        }
    }
}

/// Whether do-its are asked.
pub fn are_doits_asked(whose: Whose) -> bool
    ensures { result ≡ are_doits_asked whose }
{
    match whose {
        Whose::Everyone | Whose::Outside(_) => true,
        Whose::Of(_) | Whose::Below(_) | Whose::BelowBut { .. } => false,
    }
}

/// Whether the method in a slot, if it is live and one of those that are asked, answers the question.
fn is_slot_found<L: Ledger>(
    alloc: Global,
    image: &Image,
    question: &Question,
    slot: MethodSlot,
    steps: &mut Steps<L>,
) -> Result<bool, Memory>
    requires { IsOrderly image.now }
    ensures { IfOk result (λ is. is ≡ is_place_found image.now question.now (place.Method slot)) }
{
    let Some(info) = image.method_info(slot) else {
        return Ok(false);
    };
    if !is_asked(image, question.whose, &info) {
        return Ok(false);
    }
    match image.open_body(slot, steps) {
        None => Ok(false),
        Some(tree) => {
            let (class, name) = (info.class, question.what.name());
            let outside = method_meaning(image, class, info.meta, tree, &Path::new(alloc), name);
            in_code(alloc, image.names(), &question.what, outside, &tree.body)
        }
    }
}

/// Whether the do-it of a number, if there are so many and do-its are asked, answers the question.
fn is_number_found<L: Ledger>(
    alloc: Global,
    image: &Image,
    question: &Question,
    number: usize,
    steps: &mut Steps<L>,
) -> Result<bool, Memory>
    requires { IsOrderly image.now }
    ensures { IfOk result (λ is. is ≡ is_place_found image.now question.now (place.DoIt number)) }
{
    if !are_doits_asked(question.whose) {
        return Ok(false);
    }
    match image.open_doit(number, steps) {
        None => Ok(false),
        Some(body) => {
            let outside = doit_meaning(image, body, &Path::new(alloc), question.what.name());
            in_code(alloc, image.names(), &question.what, outside, body)
        }
    }
}

/// Whether the code at a place does.
fn is_place_found<L: Ledger>(
    alloc: Global,
    image: &Image,
    question: &Question,
    place: Place,
    steps: &mut Steps<L>,
) -> Result<bool, Memory>
    requires { IsOrderly image.now }
    ensures { IfOk result (λ is. is ≡ is_place_found image.now question.now place) }
{
    match place {
        Place::Method(slot) => is_slot_found(alloc, image, question, slot, steps),
        Place::DoIt(number) => is_number_found(alloc, image, question, number, steps),
    }
}

/// Whether the code at one of the places does.
fn is_found_at<L: Ledger>(
    alloc: Global,
    image: &Image,
    question: &Question,
    places: &[Place],
    steps: &mut Steps<L>,
) -> Result<bool, Memory>
    requires { IsOrderly image.now }
    ensures { IfOk result (λ is. is ≡ list_any (is_place_found image.now question.now) places.now) }
{
    for place in places {
        if is_place_found(alloc, image, question, *place, steps)? {
            return Ok(true);
        }
    }
    Ok(false)
}

/// Whether a method or a do-it of the image is one of those that are asked, and a name in it means what is asked for. Opens
/// only code that mentions the name.
pub(crate) fn is_found<L: Ledger>(
    alloc: Global,
    image: &Image,
    index: &Index,
    question: &Question,
    steps: &mut Steps<L>,
) -> Result<bool, Memory>
    requires orderly { IsOrderly image.now }
    requires index { IsIndexOf image.now index.now }
    ensures { IfOk result (λ is. is ≡ is_found image.now question.now) }
{
    is_found_at(
        alloc,
        image,
        question,
        index.listed(question.what.name()),
        steps,
    )
}
