// Whether a method may go.
ghost use Rattle.std.specs.Prelude.{◌≡◌, IfOk};
ghost use Rattle.image_model.specs.Words.{number_words};
ghost use Rattle.class_table.specs.Valid.{IsOrderly};
ghost use Rattle.class_table.specs.View.{number_image};
ghost use Rattle.command_model.specs.MethodConditions as model;
ghost use Rattle.commands.specs.Views.{asked_by};
ghost use Rattle.reference_index.specs.Mentioned.{IsIndexOf};
ghost use Rattle.method_questions.specs.Found.{opened_at, superclass_slot, object_slot, inherited_slot, are_same};

use crate::found::{named_slot, opened};
use crate::same::is_same_method;
use class_table::{ClassId, Image, MethodSlot};
use code_questions::{Question, Way, Whose, is_found};
use commands::MethodName;
use rb_base::{Memory, NameId, Steps};
use reference_index::Index;
use std::alloc::Global;
use std::sync::ledger::Ledger;

/// The superclass of the class of the name, if there is such a class and it has one.
pub(crate) fn superclass_slot(image: &Image, class: NameId) -> Option<ClassId>
    ensures { result ≡ superclass_slot image.now class }
{
    let class = image.class_named(class)?;
    image.class_rec(class)?.superclass
}

/// The slot of the method that each class understands as an object.
pub fn object_slot(image: &Image, selector: NameId) -> Option<MethodSlot>
    ensures { result ≡ object_slot image.now selector }
{
    let name = image.names().find(b"Class")?;
    let class = image.class_named(name)?;
    image.lookup(class, false, selector)
}

/// The slot of the method that a message to `super` runs in a method of the class of a name.
pub fn inherited_slot(
    image: &Image,
    class: NameId,
    meta: bool,
    selector: NameId,
) -> Option<MethodSlot>
    ensures { result ≡ inherited_slot image.now class meta selector }
{
    match superclass_slot(image, class) {
        Some(above) => image.lookup(above, meta, selector),
        None if meta => object_slot(image, selector),
        None => None,
    }
}

/// Whether no code sends the selector.
pub fn is_sent_nowhere<L: Ledger>(
    alloc: Global,
    image: &Image,
    index: &Index,
    selector: NameId,
    steps: &mut Steps<L>,
) -> Result<bool, Memory>
    requires orderly { IsOrderly image.now }
    requires index { IsIndexOf image.now index.now }
    ensures { IfOk result (λ is. is ≡ model.is_sent_nowhere (number_words image.now.names) (number_image image.now) selector) }
{
    let question = Question {
        whose: Whose::Everyone,
        what: Way::Sent,
        name: selector,
    };
    let found = is_found(alloc, image, index, &question, steps)?;
    Ok(!found)
}

/// Whether the methods in two slots are the same; where a slot is not live, they are not. Counts at most two steps.
pub fn are_same<L: Ledger>(
    alloc: Global,
    image: &Image,
    slot: MethodSlot,
    other: MethodSlot,
    steps: &mut Steps<L>,
) -> Result<bool, Memory>
    requires { IsOrderly image.now }
    ensures { IfOk result (λ is. is ≡ are_same image.now (opened_at image.now slot) (opened_at image.now other)) }
{
    match opened(image, slot, steps) {
        None => Ok(false),
        Some(found) => match opened(image, other, steps) {
            None => Ok(false),
            Some(again) => is_same_method(alloc, image, &found, &again),
        },
    }
}

/// Whether there is such a method, and its selector is sent nowhere or what is inherited in place of it is the same. Want of
/// memory, if there is not enough of it to look.
pub fn is_removable<L: Ledger>(
    alloc: Global,
    image: &Image,
    index: &Index,
    method: MethodName,
    steps: &mut Steps<L>,
) -> Result<bool, Memory>
    requires orderly { IsOrderly image.now }
    requires index { IsIndexOf image.now index.now }
    ensures { IfOk result (λ is. is ≡ model.is_removable (number_words image.now.names) (asked_by image.now.names).is_super (number_image image.now) method.class method.meta method.selector) }
{
    let MethodName {
        class,
        meta,
        selector,
    } = method;
    let Some(slot) = named_slot(image, class, meta, selector) else {
        return Ok(false);
    };
    if is_sent_nowhere(alloc, image, index, selector, steps)? {
        return Ok(true);
    }
    match inherited_slot(image, class, meta, selector) {
        None => Ok(false),
        Some(other) => are_same(alloc, image, slot, other, steps),
    }
}
