// What is in the way of a condition of a command, as far as it stands in the image.
ghost use Rattle.std.specs.Prelude.{◌≡◌, ◌++◌, ℕ, IfOk, OnOk};
ghost use Rattle.class_table.specs.Valid.{IsOrderly};
ghost use Rattle.command_model.specs.Commands.{CommandOf};
ghost use Rattle.command_model.specs.Conditions.{VariableFree};
ghost use Rattle.image_model.specs.Words.{number_words};
ghost use Rattle.refusal_witnesses.specs.MethodWitnesses.{other_meanings};
ghost use Rattle.class_table.specs.View.{number_image};
ghost use Rattle.commands.specs.Views.{asked_by, code_command, command_of, condition_of};
ghost use Rattle.commands.specs.declared.command.MethodName.{MethodName};
ghost use Rattle.commands.specs.declared.condition.Condition.TheVariants as declared;
ghost use Rattle.refusal_witnesses.specs.Refused.{of_inlined};
ghost use Rattle.witness_lists.specs.Views.{shown};
ghost use Rattle.explained_scripts.specs.Families.{at_spot, of_code, of_methods, of_names, of_parts, of_uses, standing, IsMoving};

use class_questions::is_class;
use class_table::Image;
use class_witnesses::{
    children, hindrances, kernel_class, kernel_parent, other_parent, own_definer,
};
use commands::{CodeMove, Command, Condition, MethodName, MethodPart, Spot, VariableMove};
use hierarchy_questions::{Arrival, losers};
use method_witnesses::{kernel_method, method_there, namings_in_method, other_meanings, supers};
use name_witnesses::{kernel_speakings, namings, reflections_there, speakings};
use part_witnesses::{part_witnesses, receiver_witness, target_witnesses, temporary_witnesses};
use rb_base::{Memory, NameId, Steps};
use std::alloc::Global;
use std::sync::ledger::Ledger;
use use_witnesses::{
    argument_reads, heights_there, looked_uses, missers, other_passings, other_targets,
    others_after, outer_uses,
};
use witness_lists::Witness;

/// Appends what keeps a variable from coming into a class; of a variable that goes up, the classes that lose it are not
/// looked at, nor those below them.
fn arrival_hindrances<L: Ledger>(
    alloc: Global,
    image: &Image,
    command: &Command,
    class: NameId,
    variable: NameId,
    found: &mut Vec<Witness>,
    steps: &mut Steps<L>,
) -> Result<(), Memory>
    requires { IsOrderly image.now }
    ensures { OnOk result (shown image.now found.new.items ≡ shown image.now found.old.items ++ of_names image.now (command_of command.now) (VariableFree class variable)) }
{
    match command {
        Command::Variable(VariableMove::InstanceUp { .. }) => {
            let lost = losers(alloc, image, class, variable)?;
            let arrival = Arrival {
                class,
                variable,
                excepted: lost.as_slice(),
            };
            hindrances(alloc, image, &arrival, found, steps)
        }
        Command::Variable(VariableMove::SharedUp { class: lower, .. }) => {
            let arrival = Arrival {
                class,
                variable,
                excepted: &[*lower],
            };
            hindrances(alloc, image, &arrival, found, steps)
        }
        _ => {
            let arrival = Arrival {
                class,
                variable,
                excepted: &[],
            };
            hindrances(alloc, image, &arrival, found, steps)
        }
    }
}

/// Appends what is in the way of a condition of names and classes.
fn put_names<L: Ledger>(
    alloc: Global,
    image: &Image,
    command: &Command,
    condition: &Condition,
    found: &mut Vec<Witness>,
    steps: &mut Steps<L>,
) -> Result<(), Memory>
    requires { IsOrderly image.now }
    ensures { OnOk result (shown image.now found.new.items ≡ shown image.now found.old.items ++ of_names image.now (command_of command.now) (condition_of condition.now)) }
{
    match *condition {
        Condition::NoReflection => reflections_there(alloc, image, found, steps),
        Condition::IsUserClass { class } => kernel_class(image, class, found),
        Condition::NameUnused { name } => namings(alloc, image, name, found, steps),
        Condition::SelectorFresh { selector } => speakings(alloc, image, selector, found, steps),
        Condition::NotKernelSelector { selector } => {
            kernel_speakings(alloc, image, selector, found, steps)
        }
        Condition::NoSubclasses { class } => children(image, class, found),
        Condition::VariableFree { class, variable } => {
            arrival_hindrances(alloc, image, command, class, variable, found, steps)
        }
        Condition::ParentIsUser { class } => kernel_parent(image, class, found),
        Condition::ChildOf { class, superclass } => other_parent(image, class, superclass, found),
        Condition::LacksVariable { class, variable } => own_definer(image, class, variable, found),
        _ => Ok(()),
    }
}

/// Appends the names of a method that mean another thing in a class. Want of memory also if there is no such class, which a
/// condition before this one says.
fn put_meanings<L: Ledger>(
    alloc: Global,
    image: &Image,
    method: MethodName,
    to: NameId,
    found: &mut Vec<Witness>,
    steps: &mut Steps<L>,
) -> Result<(), Memory>
    requires { IsOrderly image.now }
    ensures { OnOk result (shown image.now found.new.items ≡ shown image.now found.old.items ++ other_meanings (number_words image.now.names) (asked_by image.now.names).is_super (number_image image.now) method.class method.meta method.selector to) }
{
    if !is_class(image, to) {
        return Err(Memory);
    }
    other_meanings(alloc, image, method, to, found, steps)
}

/// Appends what is in the way of a condition of methods.
fn put_methods<L: Ledger>(
    alloc: Global,
    image: &Image,
    condition: &Condition,
    found: &mut Vec<Witness>,
    steps: &mut Steps<L>,
) -> Result<(), Memory>
    requires { IsOrderly image.now }
    ensures { (command : CommandOf ℕ) → OnOk result (shown image.now found.new.items ≡ shown image.now found.old.items ++ of_methods image.now command (condition_of condition.now)) }
{
    match *condition {
        Condition::Implements(method) => kernel_method(image, method, found),
        Condition::NotImplements(method) => method_there(image, method, found),
        Condition::NoSuper(method) => supers(alloc, image, method, found, steps),
        Condition::MeansSame { method, to } => put_meanings(alloc, image, method, to, found, steps),
        Condition::NotIn { method, variable } => {
            namings_in_method(alloc, image, method, variable, found, steps)
        }
        Condition::OneTarget(method) => other_targets(image, method, found),
        _ => Ok(()),
    }
}

/// Appends what is in the way of a condition of uses, of arguments and of heights.
fn put_uses<L: Ledger>(
    alloc: Global,
    image: &Image,
    command: &Command,
    condition: &Condition,
    found: &mut Vec<Witness>,
    steps: &mut Steps<L>,
) -> Result<(), Memory>
    requires orderly { IsOrderly image.now }
    requires moving { IsMoving image.now (command_of command.now) (condition_of condition.now) }
    ensures { OnOk result (shown image.now found.new.items ≡ shown image.now found.old.items ++ of_uses image.now (command_of command.now) (condition_of condition.now)) }
{
    match *condition {
        Condition::Removable(method) => missers(alloc, image, method, found, steps),
        Condition::NotReferenced { class } => outer_uses(alloc, image, class, found, steps),
        Condition::VariableUnused { class, variable } => {
            looked_uses(alloc, image, command, class, variable, found, steps)
        }
        Condition::Unreached { selector } => {
            others_after(alloc, image, command, selector, found, steps)
        }
        Condition::ParameterUnused { selector, argument } => {
            argument_reads(alloc, image, selector, argument, found, steps)
        }
        Condition::PlainArguments { selector, argument } => {
            other_passings(alloc, image, selector, argument, found, steps)
        }
        Condition::Shallow => heights_there(alloc, image, command, found, steps),
        _ => Ok(()),
    }
}

/// Appends what is in the way of a condition of a message that is inlined, or of a temporary that is, at a place.
fn put_spot<L: Ledger>(
    alloc: Global,
    image: &Image,
    condition: &Condition,
    method: MethodName,
    spot: Spot,
    found: &mut Vec<Witness>,
    steps: &mut Steps<L>,
) -> Result<(), Memory>
    requires { IsOrderly image.now }
    ensures { OnOk result (shown image.now found.new.items ≡ shown image.now found.old.items ++ at_spot image.now method spot condition.now) }
{
    match spot {
        Spot::Part { from, to } => {
            let part = MethodPart { method, from, to };
            target_witnesses(alloc, image, condition, &part, found, steps)
        }
        Spot::Name(variable) => {
            temporary_witnesses(alloc, image, condition, method, variable, found, steps)
        }
    }
}

/// Appends what is in the way of a condition of parts.
fn put_parts<L: Ledger>(
    alloc: Global,
    image: &Image,
    condition: &Condition,
    found: &mut Vec<Witness>,
    steps: &mut Steps<L>,
) -> Result<(), Memory>
    requires { IsOrderly image.now }
    ensures { (command : CommandOf ℕ) → OnOk result (shown image.now found.new.items ≡ shown image.now found.old.items ++ of_parts image.now command (condition_of condition.now)) }
{
    match *condition {
        Condition::PartIs(part) => part_witnesses(alloc, image, condition, &part, found, steps),
        Condition::NoReturn(part) => part_witnesses(alloc, image, condition, &part, found, steps),
        Condition::AssignsNoOuter(part) => {
            part_witnesses(alloc, image, condition, &part, found, steps)
        }
        Condition::TempsSteady(part) => {
            part_witnesses(alloc, image, condition, &part, found, steps)
        }
        Condition::ValueUnused(part) => {
            part_witnesses(alloc, image, condition, &part, found, steps)
        }
        Condition::FirstEvaluated(part) => {
            part_witnesses(alloc, image, condition, &part, found, steps)
        }
        Condition::SelfSend(part) => receiver_witness(alloc, image, &part, found, steps),
        _ => Ok(()),
    }
}

/// Appends what keeps the method that a message finds from standing in place of the message, if the change replaces a message.
fn put_changed<L: Ledger>(
    alloc: Global,
    image: &Image,
    change: &CodeMove,
    condition: &Condition,
    found: &mut Vec<Witness>,
    steps: &mut Steps<L>,
) -> Result<(), Memory>
    requires { IsOrderly image.now }
    ensures { (method : MethodName) → condition.now ≡ declared.Inlinable method → OnOk result (shown image.now found.new.items ≡ shown image.now found.old.items ++ of_inlined (asked_by image.now.names) (number_image image.now) (code_command change.now)) }
{
    match change {
        CodeMove::InlineMethod(part) => {
            target_witnesses(alloc, image, condition, part, found, steps)
        }
        _ => Ok(()),
    }
}

/// The same, if the command replaces a message.
fn put_inlined<L: Ledger>(
    alloc: Global,
    image: &Image,
    command: &Command,
    condition: &Condition,
    found: &mut Vec<Witness>,
    steps: &mut Steps<L>,
) -> Result<(), Memory>
    requires { IsOrderly image.now }
    ensures { (method : MethodName) → condition.now ≡ declared.Inlinable method → OnOk result (shown image.now found.new.items ≡ shown image.now found.old.items ++ of_inlined (asked_by image.now.names) (number_image image.now) (command_of command.now)) }
{
    match command {
        Command::MoveCode(change) => put_changed(alloc, image, change, condition, found, steps),
        _ => Ok(()),
    }
}

/// Appends what is in the way of a condition of temporaries and of messages that become code.
fn put_code<L: Ledger>(
    alloc: Global,
    image: &Image,
    command: &Command,
    condition: &Condition,
    found: &mut Vec<Witness>,
    steps: &mut Steps<L>,
) -> Result<(), Memory>
    requires { IsOrderly image.now }
    ensures { OnOk result (shown image.now found.new.items ≡ shown image.now found.old.items ++ of_code image.now (command_of command.now) (condition_of condition.now)) }
{
    match *condition {
        Condition::Inlinable(_) => put_inlined(alloc, image, command, condition, found, steps),
        Condition::PlainActuals(part) => {
            target_witnesses(alloc, image, condition, &part, found, steps)
        }
        Condition::NoCapture { method, spot } => {
            put_spot(alloc, image, condition, method, spot, found, steps)
        }
        Condition::NoNewControl { method, spot } => {
            put_spot(alloc, image, condition, method, spot, found, steps)
        }
        Condition::Declared { method, variable } => {
            temporary_witnesses(alloc, image, condition, method, variable, found, steps)
        }
        Condition::LetForm { method, variable } => {
            temporary_witnesses(alloc, image, condition, method, variable, found, steps)
        }
        _ => Ok(()),
    }
}

/// What is in the way of a condition of the command, as far as it stands in the image.
pub(crate) fn standing<L: Ledger>(
    alloc: Global,
    image: &Image,
    command: &Command,
    condition: &Condition,
    steps: &mut Steps<L>,
) -> Result<Vec<Witness>, Memory>
    requires orderly { IsOrderly image.now }
    requires moving { IsMoving image.now (command_of command.now) (condition_of condition.now) }
    ensures { IfOk result (λ found. shown image.now found.items ≡ standing image.now (command_of command.now) (condition_of condition.now)) }
{
    let mut found = Vec::new(alloc);
    put_names(alloc, image, command, condition, &mut found, steps)?;
    put_methods(alloc, image, condition, &mut found, steps)?;
    put_uses(alloc, image, command, condition, &mut found, steps)?;
    put_parts(alloc, image, condition, &mut found, steps)?;
    put_code(alloc, image, command, condition, &mut found, steps)?;
    Ok(found)
}
