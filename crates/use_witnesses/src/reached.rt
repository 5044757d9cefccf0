// The witnesses of the condition that a method may come, go up or go down.
ghost use Rattle.std.specs.Prelude.{◌≡◌, ◌++◌, is_some, true, OnOk};
ghost use Rattle.std.specs.Option.{ForSome};
ghost use Rattle.image_model.specs.Words.{number_words};
ghost use Rattle.class_table.specs.Valid.{IsOrderly};
ghost use Rattle.class_table.specs.View.{number_image};
ghost use Rattle.commands.specs.Views.{asked_by, command_of};
ghost use Rattle.method_questions.specs.Moves.{AreOwners};
ghost use Rattle.reference_index.specs.Mentioned.{IsIndexOf};
ghost use Rattle.refusal_witnesses.specs.MethodWitnesses.{others_after, reachings};
ghost use Rattle.refusal_witnesses.specs.Refused.{is_moved_there};
ghost use Rattle.witness_lists.specs.Views.{shown};
ghost use Rattle.use_witnesses.specs.Reached.{LeadsAfter, MovesSelector, another_at, others_at, slot_begins, supers_begin};

use crate::uses::{Use, Uses, uses_there};
use class_table::{ClassId, Image, MethodSlot};
use commands::Command;
use method_questions::{
    Moved, is_child, is_one_reached, is_sent_nowhere, moved_down, moved_new, moved_up, owners,
};
use rb_base::{Memory, NameId, Steps};
use reference_index::{Index, build};
use std::alloc::Global;
use std::sync::ledger::Ledger;
use use_questions::{Meant, Whose};
use witness_lists::{Sought, Witness, push_if, slot_witnesses};

/// Appends the messages of the selector to `super` in the method of a slot, if they begin in the class.
fn slot_begins<L: Ledger>(
    alloc: Global,
    image: &Image,
    class: NameId,
    selector: NameId,
    slot: MethodSlot,
    found: &mut Vec<Witness>,
    steps: &mut Steps<L>,
) -> Result<(), Memory>
    requires { IsOrderly image.now }
    ensures { OnOk result (shown image.now found.new.items ≡ shown image.now found.old.items ++ slot_begins image.now class selector slot) }
{
    let Some(info) = image.method_info(slot) else {
        return Ok(());
    };
    if !is_child(image, info.class, class) {
        return Ok(());
    }
    let sought = Sought::SentToSuper(selector);
    let whose = witness_lists::Whose::Everyone;
    slot_witnesses(alloc, image, whose, &sought, slot, found, steps)
}

/// Appends the messages of the selector to `super` that begin in the class.
fn supers_begin<L: Ledger>(
    alloc: Global,
    image: &Image,
    class: NameId,
    selector: NameId,
    found: &mut Vec<Witness>,
    steps: &mut Steps<L>,
) -> Result<(), Memory>
    requires { IsOrderly image.now }
    ensures { OnOk result (shown image.now found.new.items ≡ shown image.now found.old.items ++ supers_begin image.now class selector) }
{
    for slot in image.methods() {
        slot_begins(alloc, image, class, selector, *slot, found, steps)?;
    }
    Ok(())
}

/// Appends what reaches the class: the nodes that mean it, and the messages of the selector to `super` that begin in it.
fn reachings<L: Ledger>(
    alloc: Global,
    image: &Image,
    class: NameId,
    selector: NameId,
    found: &mut Vec<Witness>,
    steps: &mut Steps<L>,
) -> Result<(), Memory>
    requires { IsOrderly image.now }
    ensures { OnOk result (shown image.now found.new.items ≡ shown image.now found.old.items ++ reachings (number_words image.now.names) (asked_by image.now.names).is_super (number_image image.now) class selector) }
{
    let sought = Uses {
        whose: Whose::Everyone,
        what: Use::Means(Meant::Class(class)),
    };
    uses_there(alloc, image, &sought, found, steps)?;
    supers_begin(alloc, image, class, selector, found, steps)
}

/// Appends the class of a slot and what reaches it, if it finds another method once the method has moved.
fn another_at<L: Ledger>(
    alloc: Global,
    image: &Image,
    index: &Index,
    moved: &Moved<'_>,
    owners: &[ClassId],
    class: ClassId,
    found: &mut Vec<Witness>,
    steps: &mut Steps<L>,
) -> Result<(), Memory>
    requires orderly { IsOrderly image.now }
    requires index { IsIndexOf image.now index.now }
    requires owners { AreOwners image.now moved.now owners.now }
    ensures { OnOk result (shown image.now found.new.items ≡ shown image.now found.old.items ++ another_at image.now moved.now class) }
{
    let Some(rec) = image.class_rec(class) else {
        return Ok(());
    };
    if !is_one_reached(alloc, image, index, moved, owners, class, steps)? {
        return Ok(());
    }
    push_if(true, Witness::Class(rec.name), found)?;
    reachings(alloc, image, rec.name, moved.selector, found, steps)
}

/// Appends all such classes, if the selector is sent at all.
fn others_at<L: Ledger>(
    alloc: Global,
    image: &Image,
    moved: &Moved<'_>,
    found: &mut Vec<Witness>,
    steps: &mut Steps<L>,
) -> Result<(), Memory>
    requires { IsOrderly image.now }
    ensures { OnOk result (shown image.now found.new.items ≡ shown image.now found.old.items ++ others_at image.now moved.now) }
{
    let index = build(alloc, image, steps)?;
    if is_sent_nowhere(alloc, image, &index, moved.selector, steps)? {
        return Ok(());
    }
    let places = index.listed(moved.selector);
    let list = owners(alloc, image, places, moved.method.meta, moved.selector)?;
    let own = list.as_slice();
    for class in image.classes() {
        another_at(alloc, image, &index, moved, own, *class, found, steps)?;
    }
    Ok(())
}

/// The method that the command moves or brings, if there are the classes and the method that it names.
fn moved_by<'a, L: Ledger>(
    image: &'a Image,
    command: &'a Command,
    steps: &mut Steps<L>,
) -> Option<Moved<'a>>
    requires { IsOrderly image.now }
    ensures there { is_some result ≡ is_moved_there (asked_by image.now.names) (number_image image.now) (command_of command.now) }
    ensures moved { ForSome result (λ moved. LeadsAfter image.now moved (command_of command.now)) }
{
    match command {
        Command::AddMethod(new) => moved_new(image, new),
        Command::PushUpMethod(method) => moved_up(image, *method, steps),
        Command::PushDownMethod(method) => moved_down(image, *method, steps),
        _ => None,
    }
}

/// Appends the classes that find another method for the selector after the command and are reached, each with what reaches it.
/// The selector is that of the method that the command moves or brings. It lists them if there is what the command moves.
pub fn others_after<L: Ledger>(
    alloc: Global,
    image: &Image,
    command: &Command,
    selector: NameId,
    found: &mut Vec<Witness>,
    steps: &mut Steps<L>,
) -> Result<(), Memory>
    requires { IsOrderly image.now }
    ensures { MovesSelector (command_of command.now) selector → is_moved_there (asked_by image.now.names) (number_image image.now) (command_of command.now) ≡ true →
        OnOk result (shown image.now found.new.items ≡ shown image.now found.old.items ++ others_after (number_words image.now.names) (asked_by image.now.names).is_super (number_image image.now) (command_of command.now) selector) }
{
    match moved_by(image, command, steps) {
        None => Ok(()),
        Some(moved) => others_at(alloc, image, &moved, found, steps),
    }
}
