// Conditions on the names and selectors that an image has.
ghost use Rattle.std.specs.Prelude.{◌≡◌, ◌<◌, length, nat_eq, IfOk};
ghost use Rattle.class_table.specs.Valid.{IsOrderly};
ghost use Rattle.class_table.specs.View.{number_image};
ghost use Rattle.command_model.specs.Numbers.{number_command_words};
ghost use Rattle.rename_model.specs.Conditions as conditions;
ghost use Rattle.reference_index.specs.Mentioned.{IsIndexOf};

use class_questions::{is_any_named, is_class, is_defined_above, is_defined_below};
use class_table::Image;
use code_questions::{Question, Way, Whose, is_found};
use name_questions::has_own_meaning;
use rb_base::{Memory, NameId, Steps};
use reference_index::Index;
use std::alloc::Global;
use std::sync::ledger::Ledger;

/// Whether no class and no variable has the name, and no code reads, assigns or declares it.
pub(crate) fn is_name_unused<L: Ledger>(
    alloc: Global,
    image: &Image,
    index: &Index,
    name: NameId,
    steps: &mut Steps<L>,
) -> Result<bool, Memory>
    requires orderly { IsOrderly image.now }
    requires index { IsIndexOf image.now index.now }
    ensures { IfOk result (λ is. is ≡ conditions.is_name_unused nat_eq (number_image image.now) name) }
{
    if is_any_named(image, name) {
        return Ok(false);
    }
    let question = Question {
        whose: Whose::Everyone,
        what: Way::Named,
        name,
    };
    let found = is_found(alloc, image, index, &question, steps)?;
    Ok(!found)
}

/// Whether no method has the selector, and no code sends it.
pub(crate) fn is_selector_fresh<L: Ledger>(
    alloc: Global,
    image: &Image,
    index: &Index,
    selector: NameId,
    steps: &mut Steps<L>,
) -> Result<bool, Memory>
    requires orderly { IsOrderly image.now }
    requires index { IsIndexOf image.now index.now }
    ensures { IfOk result (λ is. is ≡ conditions.is_selector_fresh nat_eq (number_image image.now) selector) }
{
    let question = Question {
        whose: Whose::Everyone,
        what: Way::Spoken,
        name: selector,
    };
    let found = is_found(alloc, image, index, &question, steps)?;
    Ok(!found)
}

/// Whether the selector has no meaning of its own, and no method of the kernel has it or sends it.
pub(crate) fn is_no_kernel_selector<L: Ledger>(
    alloc: Global,
    image: &Image,
    index: &Index,
    selector: NameId,
    steps: &mut Steps<L>,
) -> Result<bool, Memory>
    requires orderly { IsOrderly image.now }
    requires index { IsIndexOf image.now index.now }
    requires known { selector < length image.now.names }
    ensures { IfOk result (λ is. is ≡ conditions.is_no_kernel_selector nat_eq (number_command_words image.now.names) (number_image image.now) selector) }
{
    let question = Question {
        whose: Whose::Kernel,
        what: Way::Spoken,
        name: selector,
    };
    let found = is_found(alloc, image, index, &question, steps)?;
    if found {
        return Ok(false);
    }
    let meaning = has_own_meaning(image.names().text_of(selector));
    Ok(!meaning)
}

/// Whether a method of the user has the selector.
pub(crate) fn is_known_selector<L: Ledger>(
    alloc: Global,
    image: &Image,
    index: &Index,
    selector: NameId,
    steps: &mut Steps<L>,
) -> Result<bool, Memory>
    requires orderly { IsOrderly image.now }
    requires index { IsIndexOf image.now index.now }
    ensures { IfOk result (λ is. is ≡ conditions.is_known_selector nat_eq (number_image image.now) selector) }
{
    let question = Question {
        whose: Whose::Users,
        what: Way::Selector,
        name: selector,
    };
    is_found(alloc, image, index, &question, steps)
}

/// Whether there is a class of the name, no class above it or below it defines the variable, nor does the class itself, and
/// no method of it or of a class below it reads, assigns or declares the name.
pub(crate) fn is_variable_free<L: Ledger>(
    alloc: Global,
    image: &Image,
    index: &Index,
    class: NameId,
    variable: NameId,
    steps: &mut Steps<L>,
) -> Result<bool, Memory>
    requires orderly { IsOrderly image.now }
    requires index { IsIndexOf image.now index.now }
    ensures { IfOk result (λ is. is ≡ conditions.is_variable_free nat_eq (number_image image.now) class variable) }
{
    if !is_class(image, class) {
        return Ok(false);
    }
    if is_defined_above(image, class, variable) {
        return Ok(false);
    }
    if is_defined_below(image, class, variable) {
        return Ok(false);
    }
    let question = Question {
        whose: Whose::Below(class),
        what: Way::Named,
        name: variable,
    };
    let found = is_found(alloc, image, index, &question, steps)?;
    Ok(!found)
}
