// Questions that are asked of places.
ghost use Rattle.std.specs.Prelude.{◌≡◌, ◌||◌, not, IfOk};
ghost use Rattle.std.specs.List.{list_any};
ghost use Rattle.class_table.specs.Valid.{IsOrderly};
ghost use Rattle.reference_index.specs.Mentioned.{IsIndexOf};
ghost use Rattle.parameter_questions.specs.Questions.{is_of_all, is_place_found, is_found};

use crate::code::Code;
use crate::faults::{in_code, in_method};
use crate::question::{Fault, Question};
use class_table::{Image, Place};
use rb_base::{Memory, Steps};
use reference_index::Index;
use std::alloc::Global;
use std::sync::ledger::Ledger;

/// Whether a method of the kernel, or one of the user, is asked for the fault.
fn is_asked(fault: Fault, kernel: bool) -> bool
    ensures { result ≡ (is_of_all fault || not kernel) }
{
    match fault {
        Fault::Passed { .. } => true,
        Fault::Read { .. } | Fault::High => !kernel,
    }
}

/// Whether the method in a slot, if it is live and asked, or the do-it of a number, if there are so many, has the fault.
pub fn is_place_found<L: Ledger>(
    alloc: Global,
    image: &Image,
    question: &Question,
    place: Place,
    steps: &mut Steps<L>,
) -> Result<bool, Memory>
    requires { IsOrderly image.now }
    ensures { IfOk result (λ is. is ≡ is_place_found image.now question.now.selector question.now.fault place) }
{
    match place {
        Place::Method(slot) => {
            let Some(info) = image.method_info(slot) else {
                return Ok(false);
            };
            if !is_asked(question.fault, info.kernel) {
                return Ok(false);
            }
            match image.open_body(slot, steps) {
                None => Ok(false),
                Some(tree) => in_method(alloc, image, question, &info, tree),
            }
        }
        Place::DoIt(number) => match image.open_doit(number, steps) {
            None => Ok(false),
            Some(body) => in_code(alloc, image, question, &Code::DoIt { body }),
        },
    }
}

/// Whether the code at one of the places does.
fn is_found_at<L: Ledger>(
    alloc: Global,
    image: &Image,
    question: &Question,
    places: &[Place],
    steps: &mut Steps<L>,
) -> Result<bool, Memory>
    requires { IsOrderly image.now }
    ensures { IfOk result (λ is. is ≡ list_any (is_place_found image.now question.now.selector question.now.fault) places.now) }
{
    for place in places {
        if is_place_found(alloc, image, question, *place, steps)? {
            return Ok(true);
        }
    }
    Ok(false)
}

/// Whether a method or a do-it of the image has the fault. Opens only code that mentions the selector.
pub(crate) fn is_found<L: Ledger>(
    alloc: Global,
    image: &Image,
    index: &Index,
    question: &Question,
    steps: &mut Steps<L>,
) -> Result<bool, Memory>
    requires orderly { IsOrderly image.now }
    requires index { IsIndexOf image.now index.now }
    ensures { IfOk result (λ is. is ≡ is_found image.now question.now.selector question.now.fault) }
{
    is_found_at(
        alloc,
        image,
        question,
        index.listed(question.selector),
        steps,
    )
}
