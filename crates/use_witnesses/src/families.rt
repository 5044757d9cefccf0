// The witnesses of the conditions that ask where something is used.
ghost use Rattle.std.specs.Prelude.{◌≡◌, ◌++◌, ℕ, false, nat_eq, IfOk, OnOk};
ghost use Rattle.image_model.specs.Image.{EntryOf, ImageOf};
ghost use Rattle.image_model.specs.Words.{number_words};
ghost use Rattle.class_table.specs.Valid.{IsOrderly};
ghost use Rattle.class_table.specs.View.{number_image};
ghost use Rattle.command_model.specs.Commands as model;
ghost use Rattle.command_model.specs.VariableConditions.{is_looked_through};
ghost use Rattle.commands.specs.Views.{asked_by, command_of};
ghost use Rattle.name_meanings.specs.Meanings.{kind_of};
ghost use Rattle.refusal_witnesses.specs.ClassWitnesses.{looked_uses, outer_uses};
ghost use Rattle.refusal_witnesses.specs.MethodWitnesses.{missers};
ghost use Rattle.refusal_witnesses.specs.ParameterWitnesses.{other_passings};
ghost use Rattle.use_questions.specs.Questions.{are_doits_asked, is_asked};
ghost use Rattle.witness_lists.specs.Views.{shown};
ghost use Rattle.use_witnesses.specs.Inherited.{is_inherited};

use crate::uses::{Use, Uses, uses_there};
use class_table::{Image, MethodSlot};
use commands::{Command, MethodName, Renaming};
use method_questions::{are_same, inherited_slot, named_slot};
use name_meanings::VariableKind;
use rb_base::{Memory, NameId, Steps};
use std::alloc::Global;
use std::sync::ledger::Ledger;
use use_questions::{Meant, Whose, looked_through};
use witness_lists::Witness;

/// Appends the nodes that mean the class and stand outside its own methods.
pub fn outer_uses<L: Ledger>(
    alloc: Global,
    image: &Image,
    class: NameId,
    found: &mut Vec<Witness>,
    steps: &mut Steps<L>,
) -> Result<(), Memory>
    requires { IsOrderly image.now }
    ensures { OnOk result (shown image.now found.new.items ≡ shown image.now found.old.items ++ outer_uses (number_words image.now.names) (number_image image.now) class) }
{
    let sought = Uses {
        whose: Whose::Outside(class),
        what: Use::Means(Meant::Class(class)),
    };
    uses_there(alloc, image, &sought, found, steps)
}

/// The kind of the variable that the command changes; that of instance variables, if it changes none.
fn kind_of(command: &Command) -> VariableKind
    ensures { kind_of result ≡ model.kind_of (command_of command.now) }
{
    match command {
        Command::Rename(Renaming::Variable { kind, .. }) => *kind,
        Command::Variable(change) => use_questions::kind_of(change),
        _ => VariableKind::Instance,
    }
}

/// In whose methods the command looks for a variable of the class.
fn looked_in(command: &Command, class: NameId) -> Whose
    ensures methods { (i : ImageOf ℕ) (m : EntryOf ℕ) → is_asked i result m ≡ is_looked_through nat_eq i.classes (command_of command.now) class m }
    ensures doits { are_doits_asked result ≡ false }
{
    match command {
        Command::Variable(change) => looked_through(change, class),
        _ => Whose::Below(class),
    }
}

/// Appends the nodes that mean the variable of the class in the methods that the command looks through.
pub fn looked_uses<L: Ledger>(
    alloc: Global,
    image: &Image,
    command: &Command,
    class: NameId,
    variable: NameId,
    found: &mut Vec<Witness>,
    steps: &mut Steps<L>,
) -> Result<(), Memory>
    requires { IsOrderly image.now }
    ensures { OnOk result (shown image.now found.new.items ≡ shown image.now found.old.items ++ looked_uses (number_words image.now.names) (number_image image.now) (command_of command.now) class variable) }
{
    let meant = Meant::Variable {
        kind: kind_of(command),
        class,
        variable,
    };
    let sought = Uses {
        whose: looked_in(command, class),
        what: Use::Means(meant),
    };
    uses_there(alloc, image, &sought, found, steps)
}

/// Appends the nodes that pass something else than an atom or a declared name for the argument of the selector, counted from 1.
pub fn other_passings<L: Ledger>(
    alloc: Global,
    image: &Image,
    selector: NameId,
    argument: usize,
    found: &mut Vec<Witness>,
    steps: &mut Steps<L>,
) -> Result<(), Memory>
    requires { IsOrderly image.now }
    ensures { OnOk result (shown image.now found.new.items ≡ shown image.now found.old.items ++ other_passings (asked_by image.now.names) (number_image image.now) selector argument) }
{
    let what = Use::Passes {
        selector,
        number: argument.saturating_sub(1),
    };
    let sought = Uses {
        whose: Whose::Everyone,
        what,
    };
    uses_there(alloc, image, &sought, found, steps)
}

/// Whether the method in a slot is the same as the one that is inherited in its place, if one is.
fn is_inherited<L: Ledger>(
    alloc: Global,
    image: &Image,
    slot: MethodSlot,
    method: &MethodName,
    steps: &mut Steps<L>,
) -> Result<bool, Memory>
    requires { IsOrderly image.now }
    ensures { IfOk result (λ is. is ≡ is_inherited image.now slot method.now) }
{
    match inherited_slot(image, method.class, method.meta, method.selector) {
        None => Ok(false),
        Some(other) => are_same(alloc, image, slot, other, steps),
    }
}

/// Appends the nodes that send the selector of the method, if there is the method and none like it is inherited in its place.
pub fn missers<L: Ledger>(
    alloc: Global,
    image: &Image,
    method: MethodName,
    found: &mut Vec<Witness>,
    steps: &mut Steps<L>,
) -> Result<(), Memory>
    requires { IsOrderly image.now }
    ensures { OnOk result (shown image.now found.new.items ≡ shown image.now found.old.items ++ missers (number_words image.now.names) (asked_by image.now.names).is_super (number_image image.now) method.class method.meta method.selector) }
{
    let Some(slot) = named_slot(image, method.class, method.meta, method.selector) else {
        return Ok(());
    };
    if is_inherited(alloc, image, slot, &method, steps)? {
        return Ok(());
    }
    let sought = Uses {
        whose: Whose::Everyone,
        what: Use::Sends(method.selector),
    };
    uses_there(alloc, image, &sought, found, steps)
}
