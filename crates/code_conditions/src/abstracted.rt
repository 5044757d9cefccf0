// Whether code is low in which a variable is read and assigned by messages.
ghost use Rattle.std.specs.Prelude.{◌≡◌, IfOk};
ghost use Rattle.std.specs.List.{list_any};
ghost use Rattle.class_table.specs.declared.record.Place.TheVariants as place;
ghost use Rattle.class_table.specs.Valid.{IsOrderly};
ghost use Rattle.class_table.specs.View.{number_image};
ghost use Rattle.command_model.specs.CodeHolds.{are_low_abstracted};
ghost use Rattle.commands.specs.Views.{asked_by, self_in};
ghost use Rattle.reference_index.specs.Mentioned.{IsIndexOf};
ghost use Rattle.code_conditions.specs.HighCode.{is_place_high};

use abstracted_code::{Abstraction, abstracted_doit, abstracted_method};
use class_table::{Image, MethodSlot, Place};
use parameter_questions::is_high;
use rb_base::{Memory, Steps};
use reference_index::Index;
use std::alloc::Global;
use std::sync::ledger::Ledger;

/// Whether the method in a slot, if it is live, is one of the user and means the variable, is higher than 200 nodes then.
fn is_slot_high<L: Ledger>(
    alloc: Global,
    image: &Image,
    slot: MethodSlot,
    abstraction: &Abstraction,
    steps: &mut Steps<L>,
) -> Result<bool, Memory>
    requires { IsOrderly image.now }
    ensures { IfOk result (λ is. is ≡ is_place_high image.now abstraction.now (place.Method slot)) }
{
    let Some(info) = image.method_info(slot) else {
        return Ok(false);
    };
    if info.kernel {
        return Ok(false);
    }
    let Some(old) = image.open_body(slot, steps) else {
        return Ok(false);
    };
    let made = abstracted_method(alloc, image, info.class, info.meta, old, abstraction)?;
    let Some(tree) = made else {
        return Ok(false);
    };
    Ok(is_high(&tree.body))
}

/// Whether the do-it of a number, if there are so many and it means the variable, is higher than 200 nodes then.
fn is_number_high<L: Ledger>(
    alloc: Global,
    image: &Image,
    number: usize,
    abstraction: &Abstraction,
    steps: &mut Steps<L>,
) -> Result<bool, Memory>
    requires { IsOrderly image.now }
    ensures { IfOk result (λ is. is ≡ is_place_high image.now abstraction.now (place.DoIt number)) }
{
    let Some(old) = image.open_doit(number, steps) else {
        return Ok(false);
    };
    let made = abstracted_doit(alloc, image, old, abstraction)?;
    let Some(body) = made else {
        return Ok(false);
    };
    Ok(is_high(&body))
}

/// Whether the code at a place is.
pub fn is_place_high<L: Ledger>(
    alloc: Global,
    image: &Image,
    place: Place,
    abstraction: &Abstraction,
    steps: &mut Steps<L>,
) -> Result<bool, Memory>
    requires { IsOrderly image.now }
    ensures { IfOk result (λ is. is ≡ is_place_high image.now abstraction.now place) }
{
    match place {
        Place::Method(slot) => is_slot_high(alloc, image, slot, abstraction, steps),
        Place::DoIt(number) => is_number_high(alloc, image, number, abstraction, steps),
    }
}

/// Whether the code at one of the places is.
fn is_any_high<L: Ledger>(
    alloc: Global,
    image: &Image,
    places: &[Place],
    abstraction: &Abstraction,
    steps: &mut Steps<L>,
) -> Result<bool, Memory>
    requires { IsOrderly image.now }
    ensures { IfOk result (λ is. is ≡ list_any (is_place_high image.now abstraction.now) places.now) }
{
    for place in places {
        if is_place_high(alloc, image, *place, abstraction, steps)? {
            return Ok(true);
        }
    }
    Ok(false)
}

/// Whether the getter, the setter, and each method of the user and each do-it that means the variable, where it is read and
/// assigned by messages, are at most 200 nodes high. Opens only code that mentions the name of the variable. Want of memory, if
/// there is not enough of it for a copy.
pub(crate) fn is_shallow_abstracted<L: Ledger>(
    alloc: Global,
    image: &Image,
    index: &Index,
    abstraction: &Abstraction,
    steps: &mut Steps<L>,
) -> Result<bool, Memory>
    requires orderly { IsOrderly image.now }
    requires index { IsIndexOf image.now index.now }
    requires self_name { abstraction.now.self_name ≡ self_in image.now.names }
    ensures { IfOk result (λ is. is ≡ are_low_abstracted (asked_by image.now.names) (number_image image.now) abstraction.now.class abstraction.now.variable abstraction.now.setter abstraction.now.parameter) }
{
    let places = index.listed(abstraction.variable);
    let high = is_any_high(alloc, image, places, abstraction, steps)?;
    Ok(!high)
}
