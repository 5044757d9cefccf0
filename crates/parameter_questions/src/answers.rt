// What commands ask that add or remove a parameter.
ghost use Rattle.std.specs.Prelude.{◌≡◌, ◌<◌, length, nat_eq, IfOk};
ghost use Rattle.class_table.specs.Valid.{IsOrderly};
ghost use Rattle.class_table.specs.View.{number_image};
ghost use Rattle.command_model.specs.ParameterConditions as model;
ghost use Rattle.commands.specs.Views.{asked_by};
ghost use Rattle.reference_index.specs.Mentioned.{IsIndexOf};

use crate::places::is_found;
use crate::question::{Fault, Question};
use class_table::Image;
use name_questions::arity;
use rb_base::{Memory, NameId, Names, Steps};
use reference_index::Index;
use std::alloc::Global;
use std::sync::ledger::Ledger;

/// Whether the number counts an argument of the selector, from 1.
fn counts_argument(names: &Names, selector: NameId, argument: usize) -> bool
    requires { selector < length names.now }
    ensures { result ≡ model.counts_argument (asked_by names.now) selector argument }
{
    1 <= argument && argument <= arity(names.text_of(selector))
}

/// Whether the selector has an argument of the number, counted from 1, and no method of the user that has the selector reads
/// it. Want of memory, if there is not enough of it to look.
pub fn is_parameter_unused<L: Ledger>(
    alloc: Global,
    image: &Image,
    index: &Index,
    selector: NameId,
    argument: usize,
    steps: &mut Steps<L>,
) -> Result<bool, Memory>
    requires orderly { IsOrderly image.now }
    requires index { IsIndexOf image.now index.now }
    requires known { selector < length image.now.names }
    ensures { IfOk result (λ is. is ≡ model.is_parameter_unused (asked_by image.now.names) (number_image image.now) selector argument) }
{
    if !counts_argument(image.names(), selector, argument) {
        return Ok(false);
    }
    let fault = Fault::Read {
        number: argument.saturating_sub(1),
    };
    let found = is_found(alloc, image, index, &Question { selector, fault }, steps)?;
    Ok(!found)
}

/// Whether the selector has an argument of the number, counted from 1, and each message of it passes an atom or a name that
/// is declared for it. Want of memory, if there is not enough of it to look.
pub fn are_arguments_plain<L: Ledger>(
    alloc: Global,
    image: &Image,
    index: &Index,
    selector: NameId,
    argument: usize,
    steps: &mut Steps<L>,
) -> Result<bool, Memory>
    requires orderly { IsOrderly image.now }
    requires index { IsIndexOf image.now index.now }
    requires known { selector < length image.now.names }
    ensures { IfOk result (λ is. is ≡ model.are_arguments_plain (asked_by image.now.names) (number_image image.now) selector argument) }
{
    if !counts_argument(image.names(), selector, argument) {
        return Ok(false);
    }
    let fault = Fault::Passed {
        number: argument.saturating_sub(1),
    };
    let found = is_found(alloc, image, index, &Question { selector, fault }, steps)?;
    Ok(!found)
}

/// Whether each method of the user that has the selector or sends it, and each do-it that sends it, is at most 200 nodes high.
/// Want of memory, if there is not enough of it to look.
pub fn is_shallow_speaking<L: Ledger>(
    alloc: Global,
    image: &Image,
    index: &Index,
    selector: NameId,
    steps: &mut Steps<L>,
) -> Result<bool, Memory>
    requires orderly { IsOrderly image.now }
    requires index { IsIndexOf image.now index.now }
    ensures { IfOk result (λ is. is ≡ model.is_shallow_speaking nat_eq selector (number_image image.now)) }
{
    let question = Question {
        selector,
        fault: Fault::High,
    };
    let found = is_found(alloc, image, index, &question, steps)?;
    Ok(!found)
}
