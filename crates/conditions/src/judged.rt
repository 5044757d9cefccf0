// Which conditions of a command hold.
ghost use Rattle.std.specs.Prelude.{◌≡◌, ◌<◌, ℕ, length, map, nat_eq, not, find, option_map, IfOk};
ghost use Rattle.std.specs.List.{AllByRecursion};
ghost use Rattle.std.specs.Option.{ForSome};
ghost use Rattle.image_model.specs.Image.{ImageOf};
ghost use Rattle.image_model.specs.ImageNames.{OptionNames};
ghost use Rattle.image_model.specs.Words.{WordsOf, number_words};
ghost use Rattle.class_table.specs.Valid.{IsOrderly};
ghost use Rattle.class_table.specs.View.{number_image};
ghost use Rattle.command_model.specs.Commands as commands;
ghost use Rattle.command_model.specs.Conditions as asked;
ghost use Rattle.command_model.specs.Holds as model;
ghost use Rattle.command_model.specs.Judged as judged;
ghost use Rattle.command_model.specs.NameConditions as names;
ghost use Rattle.command_model.specs.Numbers.{number_command_words};
ghost use Rattle.command_model.specs.VariableConditions.{is_unused_for, may_come_for};
ghost use Rattle.command_numbers.specs.CommandNames.{CommandNames, ConditionNames};
ghost use Rattle.name_meanings.specs.Meanings as meanings;
ghost use Rattle.commands.specs.Views.{asked_by, command_of, condition_of, move_command};
ghost use Rattle.part_lookup.specs.Kept.{IsKept};
ghost use Rattle.reference_index.specs.Mentioned.{IsIndexOf};
ghost use Rattle.conditions.specs.Concerns.{Concerns};

use crate::added::adds_no_reflection;
use crate::code::{
    is_known_selector, is_name_unused, is_no_kernel_selector, is_selector_fresh, is_variable_free,
};
use crate::code_judged::code_holds;
use crate::needed::{arity_of, is_good_name, needs};
use crate::reflection::has_no_reflection;
use class_questions::{has_variable, is_class, is_user_class};
use class_table::Image;
use commands::{Command, Condition, Renaming, VariableMove};
use hierarchy_questions::{
    Arrival, has_no_subclasses, has_user_parent, implements, is_user_child, lacks_method,
    lacks_variable, losers, may_come_up,
};
use method_questions::{
    is_removable, is_unreached_down, is_unreached_new, is_unreached_up, is_without_super,
    means_same_in_class,
};
use name_meanings::VariableKind;
use part_lookup::KeptPart;
use rb_base::{Memory, NameId, Steps};
use reference_index::Index;
use std::alloc::Global;
use std::sync::ledger::Ledger;
use use_questions::{is_not_referenced, is_unused};

/// The kind of the variable of which the command speaks.
fn kind_of(command: &Command) -> VariableKind
    ensures { meanings.kind_of result ≡ commands.kind_of (command_of command.now) }
{
    match command {
        Command::Rename(Renaming::Variable { kind, .. }) => *kind,
        Command::Variable(change) => match change {
            VariableMove::Add { kind, .. } | VariableMove::Remove { kind, .. } => *kind,
            VariableMove::SharedUp { .. } | VariableMove::SharedDown { .. } => VariableKind::Shared,
            _ => VariableKind::Instance,
        },
        _ => VariableKind::Instance,
    }
}

/// The move by which the methods are known that are looked at for a variable: that of the command, or one for which all
/// methods are looked at that can name a variable of the kind.
fn leaving(command: &Command) -> VariableMove
    ensures { (w : WordsOf ℕ) (i : ImageOf ℕ) (c x : ℕ) → is_unused_for w i (move_command result) c x ≡ is_unused_for w i (command_of command.now) c x }
{
    match command {
        Command::Variable(change) => *change,
        Command::MoveCode(_) => VariableMove::Remove {
            kind: VariableKind::Instance,
            class: NameId(0),
            variable: NameId(0),
        },
        _ => VariableMove::Remove {
            kind: kind_of(command),
            class: NameId(0),
            variable: NameId(0),
        },
    }
}

/// Whether the variable can come into the class, as the command asks it.
fn is_free_for<L: Ledger>(
    alloc: Global,
    image: &Image,
    index: &Index,
    command: &Command,
    class: NameId,
    variable: NameId,
    steps: &mut Steps<L>,
) -> Result<bool, Memory>
    requires orderly { IsOrderly image.now }
    requires index { IsIndexOf image.now index.now }
    ensures { IfOk result (λ is. is ≡ may_come_for nat_eq (number_image image.now) (command_of command.now) class variable) }
{
    match command {
        Command::Variable(VariableMove::InstanceUp { .. }) => {
            let lost = losers(alloc, image, class, variable)?;
            let arrival = Arrival {
                class,
                variable,
                excepted: lost.as_slice(),
            };
            may_come_up(alloc, image, index, &arrival, steps)
        }
        Command::Variable(VariableMove::SharedUp { class: lower, .. }) => {
            let arrival = Arrival {
                class,
                variable,
                excepted: &[*lower],
            };
            may_come_up(alloc, image, index, &arrival, steps)
        }
        _ => is_variable_free(alloc, image, index, class, variable, steps),
    }
}

/// Whether no method that the command looks through means the variable, which the class has.
fn is_unused_by<L: Ledger>(
    alloc: Global,
    image: &Image,
    index: &Index,
    command: &Command,
    class: NameId,
    variable: NameId,
    steps: &mut Steps<L>,
) -> Result<bool, Memory>
    requires orderly { IsOrderly image.now }
    requires index { IsIndexOf image.now index.now }
    ensures { IfOk result (λ is. is ≡ is_unused_for (number_words image.now.names) (number_image image.now) (command_of command.now) class variable) }
{
    let change = leaving(command);
    is_unused(alloc, image, index, &change, class, variable, steps)
}

/// Whether no class that finds another method for the selector after the command is reached.
fn is_unreached<L: Ledger>(
    alloc: Global,
    image: &Image,
    index: &Index,
    command: &Command,
    selector: NameId,
    steps: &mut Steps<L>,
) -> Result<bool, Memory>
    requires orderly { IsOrderly image.now }
    requires index { IsIndexOf image.now index.now }
    requires known { CommandNames (λ n. n < length image.now.names) (command_of command.now) }
    requires concerns { Concerns (number_image image.now) (command_of command.now) (asked.Unreached selector) }
    ensures { IfOk result (λ is. is ≡ model.holds (asked_by image.now.names) (number_image image.now) (command_of command.now) (asked.Unreached selector)) }
{
    match command {
        Command::AddMethod(new) => is_unreached_new(alloc, image, index, new, steps),
        Command::PushUpMethod(method) => is_unreached_up(alloc, image, index, *method, steps),
        Command::PushDownMethod(method) => is_unreached_down(alloc, image, index, *method, steps),
        _ => Ok(false),
    }
}

/// Whether neither code of a user nor a method that the command adds looks at the program itself.
fn is_without_reflection<L: Ledger>(
    alloc: Global,
    image: &Image,
    index: &Index,
    command: &Command,
    steps: &mut Steps<L>,
) -> Result<bool, Memory>
    requires orderly { IsOrderly image.now }
    requires index { IsIndexOf image.now index.now }
    ensures { IfOk result (λ is. is ≡ names.is_without_reflection (number_command_words image.now.names) (number_image image.now) (command_of command.now)) }
{
    let has_none = has_no_reflection(alloc, image, index, steps)?;
    if !has_none {
        return Ok(false);
    }
    adds_no_reflection(alloc, image.names(), command)
}

/// Whether the condition holds in the image, as one of the command's. Whether there is something to undo or to do again, an
/// image alone does not tell: these are false.
pub(crate) fn holds<L: Ledger>(
    alloc: Global,
    image: &Image,
    index: &Index,
    command: &Command,
    condition: &Condition,
    kept: &Option<KeptPart>,
    steps: &mut Steps<L>,
) -> Result<bool, Memory>
    requires orderly { IsOrderly image.now }
    requires index { IsIndexOf image.now index.now }
    requires command { CommandNames (λ n. n < length image.now.names) (command_of command.now) }
    requires kept { ForSome kept.now (IsKept image.now) }
    requires condition { ConditionNames (λ n. n < length image.now.names) (condition_of condition.now) }
    requires concerns { Concerns (number_image image.now) (command_of command.now) (condition_of condition.now) }
    ensures { IfOk result (λ is. is ≡ model.holds (asked_by image.now.names) (number_image image.now) (command_of command.now) (condition_of condition.now)) }
{
    match condition {
        Condition::NoReflection => is_without_reflection(alloc, image, index, command, steps),
        Condition::IsUserClass { class } => Ok(is_user_class(image, *class)),
        Condition::GoodName { name, kind } => Ok(is_good_name(image.names(), *name, *kind)),
        Condition::NameUnused { name } => is_name_unused(alloc, image, index, *name, steps),
        Condition::SelectorFresh { selector } => {
            is_selector_fresh(alloc, image, index, *selector, steps)
        }
        Condition::NotKernelSelector { selector } => {
            is_no_kernel_selector(alloc, image, index, *selector, steps)
        }
        Condition::Arity { selector, count } => Ok(arity_of(image.names(), *selector) == *count),
        Condition::Implements(method) => Ok(implements(image, *method)),
        Condition::NotImplements(method) => Ok(lacks_method(image, index, *method)),
        Condition::Removable(method) => is_removable(alloc, image, index, *method, steps),
        Condition::NoSubclasses { class } => Ok(has_no_subclasses(image, *class)),
        Condition::NotReferenced { class } => is_not_referenced(alloc, image, index, *class, steps),
        Condition::HasVariable { class, variable } => {
            Ok(has_variable(image, kind_of(command), *class, *variable))
        }
        Condition::VariableFree { class, variable } => {
            is_free_for(alloc, image, index, command, *class, *variable, steps)
        }
        Condition::VariableUnused { class, variable } => {
            is_unused_by(alloc, image, index, command, *class, *variable, steps)
        }
        Condition::ParentIsUser { class } => Ok(has_user_parent(image, *class)),
        Condition::NoSuper(method) => is_without_super(alloc, image, *method, steps),
        Condition::MeansSame { method, to } => {
            means_same_in_class(alloc, image, *method, *to, steps)
        }
        Condition::Unreached { selector } => {
            is_unreached(alloc, image, index, command, *selector, steps)
        }
        Condition::IsClass { class } => Ok(is_class(image, *class)),
        Condition::ChildOf { class, superclass } => Ok(is_user_child(image, *class, *superclass)),
        Condition::LacksVariable { class, variable } => Ok(lacks_variable(
            image, *class, *variable,
        )),
        Condition::KnownSelector { selector } => {
            is_known_selector(alloc, image, index, *selector, steps)
        }
        Condition::UndoLeft | Condition::RedoLeft => Ok(false),
        Condition::ParameterUnused { .. } | Condition::PlainArguments { .. } => {
            code_holds(alloc, image, index, command, condition, kept, steps)
        }
        Condition::AtomLiteral | Condition::Shallow => {
            code_holds(alloc, image, index, command, condition, kept, steps)
        }
        Condition::Declared { .. } | Condition::NotIn { .. } => {
            code_holds(alloc, image, index, command, condition, kept, steps)
        }
        Condition::PartIs(_) | Condition::NoReturn(_) | Condition::AssignsNoOuter(_) => {
            code_holds(alloc, image, index, command, condition, kept, steps)
        }
        Condition::TempsSteady(_) | Condition::ValueUnused(_) | Condition::FirstEvaluated(_) => {
            code_holds(alloc, image, index, command, condition, kept, steps)
        }
        Condition::SelfSend(_) | Condition::OneTarget(_) | Condition::Inlinable(_) => {
            code_holds(alloc, image, index, command, condition, kept, steps)
        }
        Condition::PlainActuals(_) | Condition::LetForm { .. } => {
            code_holds(alloc, image, index, command, condition, kept, steps)
        }
        Condition::NoCapture { .. } | Condition::NoNewControl { .. } => {
            code_holds(alloc, image, index, command, condition, kept, steps)
        }
    }
}

/// The first of these conditions that is false.
fn first_false_of<L: Ledger>(
    alloc: Global,
    image: &Image,
    index: &Index,
    command: &Command,
    conditions: &[Condition],
    kept: &Option<KeptPart>,
    steps: &mut Steps<L>,
) -> Result<Option<Condition>, Memory>
    requires orderly { IsOrderly image.now }
    requires index { IsIndexOf image.now index.now }
    requires command { CommandNames (λ n. n < length image.now.names) (command_of command.now) }
    requires kept { ForSome kept.now (IsKept image.now) }
    requires conditions { AllByRecursion (λ c. ConditionNames (λ n. n < length image.now.names) (condition_of c)) conditions.now }
    requires concern { AllByRecursion (λ c. Concerns (number_image image.now) (command_of command.now) (condition_of c)) conditions.now }
    ensures first { IfOk result (λ found. option_map condition_of found ≡ find (λ c. not (model.holds (asked_by image.now.names) (number_image image.now) (command_of command.now) c)) (map condition_of conditions.now)) }
    ensures known { IfOk result (λ found. OptionNames (λ c. ConditionNames (λ n. n < length image.now.names) (condition_of c)) found) }
{
    for condition in conditions {
        if !holds(alloc, image, index, command, condition, kept, steps)? {
            return Ok(Some(*condition));
        }
    }
    Ok(None)
}

/// The first condition of the command that is false in the image. Reads no source if `kept` is what `kept_of` finds for the
/// command.
pub fn first_false<L: Ledger>(
    alloc: Global,
    image: &Image,
    index: &Index,
    command: &Command,
    kept: &Option<KeptPart>,
    steps: &mut Steps<L>,
) -> Result<Option<Condition>, Memory>
    requires orderly { IsOrderly image.now }
    requires index { IsIndexOf image.now index.now }
    requires command { CommandNames (λ n. n < length image.now.names) (command_of command.now) }
    requires kept { ForSome kept.now (IsKept image.now) }
    ensures first { IfOk result (λ found. option_map condition_of found ≡ judged.first_false (asked_by image.now.names) (number_image image.now) (command_of command.now)) }
    ensures known { IfOk result (λ found. OptionNames (λ c. ConditionNames (λ n. n < length image.now.names) (condition_of c)) found) }
{
    let conditions = needs(alloc, image, command, kept, steps)?;
    let conditions = conditions.as_slice();
    first_false_of(alloc, image, index, command, conditions, kept, steps)
}
