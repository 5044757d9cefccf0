// Whether code of the user looks at the program itself.
ghost use Rattle.std.specs.Prelude.{◌≡◌, IfOk};
ghost use Rattle.std.specs.List.{list_any};
ghost use Rattle.st_kernel.specs.Selectors.{reflective_selectors};
ghost use Rattle.class_table.specs.Valid.{IsOrderly};
ghost use Rattle.class_table.specs.View.{number_image};
ghost use Rattle.command_model.specs.Numbers.{number_command_words};
ghost use Rattle.rename_model.specs.Conditions.{has_no_reflection};
ghost use Rattle.reference_index.specs.Mentioned.{IsIndexOf};
ghost use Rattle.code_questions.specs.declared.question.Way.TheVariants as way;
ghost use Rattle.conditions.specs.Reflection.{reflective_names, is_text_found, is_one_found};

use class_table::Image;
use code_questions::{Question, Way, Whose, is_found};
use rb_base::{Memory, Steps};
use reference_index::Index;
use std::alloc::Global;
use std::sync::ledger::Ledger;

/// The selectors by which a program looks at or changes itself.
const SELECTORS: [&[u8]; 22] = [
    b"perform:",
    b"perform:with:",
    b"perform:with:with:",
    b"perform:with:with:with:",
    b"perform:withArguments:",
    b"instVarAt:",
    b"instVarAt:put:",
    b"instVarNamed:",
    b"instVarNamed:put:",
    b"become:",
    b"becomeForward:",
    b"respondsTo:",
    b"canUnderstand:",
    b"allInstances",
    b"allSubclasses",
    b"subclasses",
    b"superclass",
    b"selectors",
    b"includesSelector:",
    b"compile:",
    b"compile:classified:",
    b"evaluate:",
];

/// The names that stand for the program itself or for what runs it.
const NAMES: [&[u8]; 2] = [b"thisContext", b"Smalltalk"];

/// Whether code of the user has the name of a text in that way, if the text is a name.
#[tactic(auto, unfolding(crate::specs::Reflection::is_text_found))]
fn is_text_found<L: Ledger>(
    alloc: Global,
    image: &Image,
    index: &Index,
    what: Way,
    text: &[u8],
    steps: &mut Steps<L>,
) -> Result<bool, Memory>
    requires orderly { IsOrderly image.now }
    requires index { IsIndexOf image.now index.now }
    ensures { IfOk result (λ is. is ≡ is_text_found image.now what text.now) }
{
    match image.names().find(text) {
        None => Ok(false),
        Some(name) => {
            let question = Question {
                whose: Whose::Users,
                what,
                name,
            };
            is_found(alloc, image, index, &question, steps)
        }
    }
}

/// Whether it has one of these.
fn is_one_found<L: Ledger>(
    alloc: Global,
    image: &Image,
    index: &Index,
    what: Way,
    texts: &[&[u8]],
    steps: &mut Steps<L>,
) -> Result<bool, Memory>
    requires orderly { IsOrderly image.now }
    requires index { IsIndexOf image.now index.now }
    ensures { IfOk result (λ is. is ≡ list_any (λ t. is_text_found image.now what t.now) texts.now) }
{
    for text in texts {
        if is_text_found(alloc, image, index, what, *text, steps)? {
            return Ok(true);
        }
    }
    Ok(false)
}

/// Whether code of the user sends one of the reflective selectors.
fn sends_reflective<L: Ledger>(
    alloc: Global,
    image: &Image,
    index: &Index,
    steps: &mut Steps<L>,
) -> Result<bool, Memory>
    requires orderly { IsOrderly image.now }
    requires index { IsIndexOf image.now index.now }
    ensures { IfOk result (λ is. is ≡ is_one_found image.now way.Sent reflective_selectors) }
{
    is_one_found(alloc, image, index, Way::Sent, &SELECTORS, steps)
}

/// Whether it reads or assigns one of the reflective names.
fn uses_reflective<L: Ledger>(
    alloc: Global,
    image: &Image,
    index: &Index,
    steps: &mut Steps<L>,
) -> Result<bool, Memory>
    requires orderly { IsOrderly image.now }
    requires index { IsIndexOf image.now index.now }
    ensures { IfOk result (λ is. is ≡ is_one_found image.now way.Used reflective_names) }
{
    is_one_found(alloc, image, index, Way::Used, &NAMES, steps)
}

/// Whether no code of the user looks at the program itself, and no method of the user is the one for messages that are not
/// understood.
pub fn has_no_reflection<L: Ledger>(
    alloc: Global,
    image: &Image,
    index: &Index,
    steps: &mut Steps<L>,
) -> Result<bool, Memory>
    requires orderly { IsOrderly image.now }
    requires index { IsIndexOf image.now index.now }
    ensures { IfOk result (λ is. is ≡ has_no_reflection (number_command_words image.now.names) (number_image image.now)) }
{
    let has = is_text_found(
        alloc,
        image,
        index,
        Way::Selector,
        b"doesNotUnderstand:",
        steps,
    )?;
    if has {
        return Ok(false);
    }
    let sends = sends_reflective(alloc, image, index, steps)?;
    if sends {
        return Ok(false);
    }
    let uses = uses_reflective(alloc, image, index, steps)?;
    Ok(!uses)
}
