// Which conditions a command has, and those that the texts of names tell.
ghost use Rattle.std.specs.Prelude.{◌≡◌, ◌<◌, ℕ, [], ◌∷◌, ◌++◌, List, length, map, nat_eq, IfOk, OnOk};
ghost use Rattle.std.specs.List.{AllByRecursion};
ghost use Rattle.std.specs.Option.{option_map_or, ForSome};
ghost use Rattle.image_model.specs.Image.{ImageOf};
ghost use Rattle.image_model.specs.Means as means;
ghost use Rattle.class_table.specs.Valid.{IsOrderly};
ghost use Rattle.class_table.specs.View.{number_image};
ghost use Rattle.command_model.specs.Asked.{AskedOf};
ghost use Rattle.command_model.specs.Commands as commands;
ghost use Rattle.command_model.specs.Conditions as needed;
ghost use Rattle.command_model.specs.NameConditions as asked;
ghost use Rattle.command_model.specs.Needs as model;
ghost use Rattle.command_model.specs.Numbers.{number_command_words};
ghost use Rattle.command_numbers.specs.CommandNames.{CommandNames, ConditionNames};
ghost use Rattle.name_meanings.specs.Meanings.{kind_of};
ghost use Rattle.commands.specs.Views.{asked_by, adds_variable, command_of, condition_of, move_command, name_kind_of, removes_variable, renames_variable, renaming_command};
ghost use Rattle.part_lookup.specs.Kept.{IsKept};
ghost use Rattle.conditions.specs.Concerns.{Concerns};

use crate::moves::needs_of_code;
use crate::parameters::{needs_of_new_parameter, needs_of_parameter_removal, needs_of_temporary};
use class_table::Image;
use code_command_numbers::numbers_of_all_commands;
use commands::{
    Command, Condition, MethodName, NameKind, NewClass, NewMethod, Renaming, VariableMove,
};
use hierarchy_questions::{receivers, superclass_of};
use name_meanings::VariableKind;
use name_questions::{arity, is_good_class_name, is_good_selector, is_good_variable_name};
use part_lookup::KeptPart;
use rb_base::{Memory, NameId, Names, Steps};
use std::alloc::Global;
use std::sync::ledger::Ledger;

/// Whether such a thing may be given the name.
pub(crate) fn is_good_name(names: &Names, name: NameId, kind: NameKind) -> bool
    requires { name < length names.now }
    ensures { result ≡ asked.is_good_name (number_command_words names.now) name (name_kind_of kind) }
{
    let text = names.text_of(name);
    match kind {
        NameKind::Class | NameKind::ClassVariable => is_good_class_name(text),
        NameKind::Variable => is_good_variable_name(text),
        NameKind::Selector => is_good_selector(text),
    }
}

/// How many arguments the selector takes.
pub(crate) fn arity_of(names: &Names, selector: NameId) -> usize
    requires { selector < length names.now }
    ensures { result ≡ (number_command_words names.now).arity selector }
{
    arity(names.text_of(selector))
}

/// What the new name of a variable is for, and the condition by which nothing else has it.
fn needs_of_new_name(kind: VariableKind, class: NameId, to: NameId) -> (NameKind, Condition)
    ensures renamed { (a : AskedOf ℕ) (i : ImageOf ℕ) (x : ℕ) → model.needs a i (renames_variable (kind_of kind) class x to)
        ≡ needed.NoReflection ∷ needed.IsUserClass class ∷ needed.HasVariable class x ∷ needed.GoodName to (name_kind_of result.0) ∷ condition_of result.1 ∷ [] }
    ensures added { (a : AskedOf ℕ) (i : ImageOf ℕ) → model.needs a i (adds_variable (kind_of kind) class to)
        ≡ needed.NoReflection ∷ needed.IsUserClass class ∷ needed.GoodName to (name_kind_of result.0) ∷ condition_of result.1 ∷ [] }
{
    match kind {
        VariableKind::Shared => (NameKind::ClassVariable, Condition::NameUnused { name: to }),
        VariableKind::Instance | VariableKind::ClassSide => (
            NameKind::Variable,
            Condition::VariableFree {
                class,
                variable: to,
            },
        ),
    }
}

/// The conditions of the renaming of a class.
fn needs_of_class(alloc: Global, class: NameId, to: NameId) -> Result<Vec<Condition>, Memory>
    ensures { IfOk result (λ found. map condition_of found.items ≡ needed.NoReflection ∷ needed.IsUserClass class ∷ needed.GoodName to needed.of_a_class ∷ needed.NameUnused to ∷ []) }
{
    let conditions = Vec::from_array(
        alloc,
        [
            Condition::NoReflection,
            Condition::IsUserClass { class },
            Condition::GoodName {
                name: to,
                kind: NameKind::Class,
            },
            Condition::NameUnused { name: to },
        ],
    )?;
    Ok(conditions)
}

/// The conditions of the renaming of a variable.
fn needs_of_variable(
    alloc: Global,
    kind: VariableKind,
    class: NameId,
    variable: NameId,
    to: NameId,
) -> Result<Vec<Condition>, Memory>
    ensures { (a : AskedOf ℕ) (i : ImageOf ℕ) → IfOk result (λ found. map condition_of found.items ≡ model.needs a i (renames_variable (kind_of kind) class variable to)) }
{
    let (name_kind, free) = needs_of_new_name(kind, class, to);
    let conditions = Vec::from_array(
        alloc,
        [
            Condition::NoReflection,
            Condition::IsUserClass { class },
            Condition::HasVariable { class, variable },
            Condition::GoodName {
                name: to,
                kind: name_kind,
            },
            free,
        ],
    )?;
    Ok(conditions)
}

/// The conditions of the renaming of a selector that takes so many arguments.
pub(crate) fn needs_of_selector(
    alloc: Global,
    selector: NameId,
    count: usize,
    to: NameId,
) -> Result<Vec<Condition>, Memory>
    ensures { IfOk result (λ found. map condition_of found.items
        ≡ needed.NoReflection ∷ needed.GoodName to needed.of_methods ∷ needed.NotKernelSelector selector ∷ needed.KnownSelector selector ∷ needed.Arity to count ∷ needed.NotKernelSelector to ∷ needed.SelectorFresh to ∷ []) }
{
    let conditions = Vec::from_array(
        alloc,
        [
            Condition::NoReflection,
            Condition::GoodName {
                name: to,
                kind: NameKind::Selector,
            },
            Condition::NotKernelSelector { selector },
            Condition::KnownSelector { selector },
            Condition::Arity {
                selector: to,
                count,
            },
            Condition::NotKernelSelector { selector: to },
            Condition::SelectorFresh { selector: to },
        ],
    )?;
    Ok(conditions)
}

/// The class, the side and the selector of a method that comes.
pub(crate) fn name_of(new: &NewMethod) -> MethodName
    ensures class { result.class ≡ new.now.class }
    ensures meta { result.meta ≡ new.now.meta }
    ensures selector { result.selector ≡ new.now.tree.selector }
{
    MethodName {
        class: new.class,
        meta: new.meta,
        selector: new.tree.selector,
    }
}

/// The conditions of a renaming.
fn needs_of_renaming(
    alloc: Global,
    names: &Names,
    renaming: &Renaming,
) -> Result<Vec<Condition>, Memory>
    requires { CommandNames (λ n. n < length names.now) (renaming_command renaming.now) }
    ensures { (i : ImageOf ℕ) → IfOk result (λ found. map condition_of found.items ≡ model.needs (asked_by names.now) i (renaming_command renaming.now)) }
{
    match *renaming {
        Renaming::Class { class, to } => needs_of_class(alloc, class, to),
        Renaming::Variable {
            kind,
            class,
            variable,
            to,
        } => needs_of_variable(alloc, kind, class, variable, to),
        Renaming::Selector { selector, to } => {
            needs_of_selector(alloc, selector, arity_of(names, selector), to)
        }
    }
}

/// The conditions of a variable that comes.
fn needs_of_new_variable(
    alloc: Global,
    kind: VariableKind,
    class: NameId,
    variable: NameId,
) -> Result<Vec<Condition>, Memory>
    ensures { (a : AskedOf ℕ) (i : ImageOf ℕ) → IfOk result (λ found. map condition_of found.items ≡ model.needs a i (adds_variable (kind_of kind) class variable)) }
{
    let (name_kind, free) = needs_of_new_name(kind, class, variable);
    let conditions = Vec::from_array(
        alloc,
        [
            Condition::NoReflection,
            Condition::IsUserClass { class },
            Condition::GoodName {
                name: variable,
                kind: name_kind,
            },
            free,
        ],
    )?;
    Ok(conditions)
}

/// The conditions of a variable that leaves its class, and all classes or those below it.
fn needs_of_leaving(
    alloc: Global,
    class: NameId,
    variable: NameId,
) -> Result<Vec<Condition>, Memory>
    ensures down { IfOk result (λ found. map condition_of found.items ≡ needed.NoReflection ∷ needed.IsUserClass class ∷ needed.HasVariable class variable ∷ needed.VariableUnused class variable ∷ []) }
    ensures removed { (a : AskedOf ℕ) (i : ImageOf ℕ) (kind : means.VariableKind) → IfOk result (λ found. map condition_of found.items ≡ model.needs a i (removes_variable kind class variable)) }
{
    let conditions = Vec::from_array(
        alloc,
        [
            Condition::NoReflection,
            Condition::IsUserClass { class },
            Condition::HasVariable { class, variable },
            Condition::VariableUnused { class, variable },
        ],
    )?;
    Ok(conditions)
}

/// The conditions of a variable that goes up to the superclass, if there is one.
fn needs_of_going_up(
    alloc: Global,
    class: NameId,
    variable: NameId,
    superclass: Option<NameId>,
) -> Result<Vec<Condition>, Memory>
    ensures { IfOk result (λ found. map condition_of found.items
        ≡ needed.NoReflection ∷ needed.IsUserClass class ∷ needed.HasVariable class variable ∷ needed.ParentIsUser class ∷ option_map_or (λ p. needed.VariableFree p variable ∷ []) superclass []) }
{
    let mut conditions = Vec::from_array(
        alloc,
        [
            Condition::NoReflection,
            Condition::IsUserClass { class },
            Condition::HasVariable { class, variable },
            Condition::ParentIsUser { class },
        ],
    )?;
    if let Some(parent) = superclass {
        conditions.push(Condition::VariableFree {
            class: parent,
            variable,
        })?;
    }
    Ok(conditions)
}

/// The conditions of a class variable that goes down to a direct subclass.
fn needs_of_going_down(
    alloc: Global,
    class: NameId,
    variable: NameId,
    to: NameId,
) -> Result<Vec<Condition>, Memory>
    ensures { IfOk result (λ found. map condition_of found.items
        ≡ needed.NoReflection ∷ needed.IsUserClass class ∷ needed.ChildOf to class ∷ needed.HasVariable class variable ∷ needed.LacksVariable to variable ∷ needed.VariableUnused class variable ∷ []) }
{
    let conditions = Vec::from_array(
        alloc,
        [
            Condition::NoReflection,
            Condition::IsUserClass { class },
            Condition::ChildOf {
                class: to,
                superclass: class,
            },
            Condition::HasVariable { class, variable },
            Condition::LacksVariable {
                class: to,
                variable,
            },
            Condition::VariableUnused { class, variable },
        ],
    )?;
    Ok(conditions)
}

/// The conditions of a variable that comes, goes or moves.
fn needs_of_move(
    alloc: Global,
    image: &Image,
    change: &VariableMove,
) -> Result<Vec<Condition>, Memory>
    requires { IsOrderly image.now }
    ensures { IfOk result (λ found. map condition_of found.items ≡ model.needs (asked_by image.now.names) (number_image image.now) (move_command change.now)) }
{
    match *change {
        VariableMove::Add {
            kind,
            class,
            variable,
        } => needs_of_new_variable(alloc, kind, class, variable),
        VariableMove::Remove {
            class,
            variable,
            ..
        } => needs_of_leaving(alloc, class, variable),
        VariableMove::InstanceDown { class, variable } => needs_of_leaving(alloc, class, variable),
        VariableMove::InstanceUp { class, variable } => {
            needs_of_going_up(alloc, class, variable, superclass_of(image, class))
        }
        VariableMove::SharedUp { class, variable } => {
            needs_of_going_up(alloc, class, variable, superclass_of(image, class))
        }
        VariableMove::SharedDown {
            class,
            variable,
            to,
        } => needs_of_going_down(alloc, class, variable, to),
    }
}

/// Puts the conditions at the end that each of the classes is one of the user, directly under the superclass.
fn put_children(
    superclass: NameId,
    classes: &[NameId],
    conditions: &mut Vec<Condition>,
) -> Result<(), Memory>
    ensures { OnOk result (map condition_of conditions.new.items ≡ map condition_of conditions.old.items ++ map (λ s. needed.ChildOf s superclass) classes.now) }
{
    for class in classes {
        conditions.extend_from_slice(&[Condition::ChildOf {
            class: *class,
            superclass,
        }])?;
    }
    Ok(())
}

/// The conditions of a class that comes.
fn needs_of_new_class(alloc: Global, new: &NewClass) -> Result<Vec<Condition>, Memory>
    ensures { IfOk result (λ found. map condition_of found.items
        ≡ needed.NoReflection ∷ needed.IsClass new.now.superclass ∷ needed.GoodName new.now.name needed.of_a_class ∷ needed.NameUnused new.now.name ∷ map (λ s. needed.ChildOf s new.now.superclass) new.now.under) }
{
    let mut conditions = Vec::from_array(
        alloc,
        [
            Condition::NoReflection,
            Condition::IsClass {
                class: new.superclass,
            },
            Condition::GoodName {
                name: new.name,
                kind: NameKind::Class,
            },
            Condition::NameUnused { name: new.name },
        ],
    )?;
    put_children(new.superclass, new.under.as_slice(), &mut conditions)?;
    Ok(conditions)
}

/// The conditions of a class that goes.
fn needs_of_class_removal(alloc: Global, class: NameId) -> Result<Vec<Condition>, Memory>
    ensures { IfOk result (λ found. map condition_of found.items ≡ needed.NoReflection ∷ needed.IsUserClass class ∷ needed.NoSubclasses class ∷ needed.NotReferenced class ∷ []) }
{
    let conditions = Vec::from_array(
        alloc,
        [
            Condition::NoReflection,
            Condition::IsUserClass { class },
            Condition::NoSubclasses { class },
            Condition::NotReferenced { class },
        ],
    )?;
    Ok(conditions)
}

/// The conditions of a method that comes.
fn needs_of_new_method(alloc: Global, new: &MethodName) -> Result<Vec<Condition>, Memory>
    ensures { IfOk result (λ found. map condition_of found.items
        ≡ needed.NoReflection ∷ needed.IsUserClass new.now.class ∷ needed.NotImplements new.now.class new.now.meta new.now.selector ∷ needed.Unreached new.now.selector ∷ []) }
{
    let conditions = Vec::from_array(
        alloc,
        [
            Condition::NoReflection,
            Condition::IsUserClass { class: new.class },
            Condition::NotImplements(*new),
            Condition::Unreached {
                selector: new.selector,
            },
        ],
    )?;
    Ok(conditions)
}

/// The conditions of a method that goes.
fn needs_of_method_removal(alloc: Global, method: &MethodName) -> Result<Vec<Condition>, Memory>
    ensures { IfOk result (λ found. map condition_of found.items
        ≡ needed.NoReflection ∷ needed.IsClass method.now.class ∷ needed.Implements method.now.class method.now.meta method.now.selector ∷ needed.Removable method.now.class method.now.meta method.now.selector ∷ []) }
{
    let conditions = Vec::from_array(
        alloc,
        [
            Condition::NoReflection,
            Condition::IsClass {
                class: method.class,
            },
            Condition::Implements(*method),
            Condition::Removable(*method),
        ],
    )?;
    Ok(conditions)
}

/// The conditions of a method that goes up to the superclass, if there is one.
fn needs_of_method_up(
    alloc: Global,
    image: &Image,
    method: &MethodName,
) -> Result<Vec<Condition>, Memory>
    requires { IsOrderly image.now }
    ensures { IfOk result (λ found. map condition_of found.items ≡ model.needs (asked_by image.now.names) (number_image image.now) (commands.PushUpMethod method.now.class method.now.meta method.now.selector)) }
{
    let mut conditions = Vec::from_array(
        alloc,
        [
            Condition::NoReflection,
            Condition::IsUserClass {
                class: method.class,
            },
            Condition::Implements(*method),
            Condition::ParentIsUser {
                class: method.class,
            },
        ],
    )?;
    if let Some(parent) = superclass_of(image, method.class) {
        conditions.extend_from_slice(&[
            Condition::NotImplements(MethodName {
                class: parent,
                meta: method.meta,
                selector: method.selector,
            }),
            Condition::NoSuper(*method),
            Condition::MeansSame {
                method: *method,
                to: parent,
            },
            Condition::Unreached {
                selector: method.selector,
            },
        ])?;
    }
    Ok(conditions)
}

/// Puts the conditions at the end that each name of the method means the same in each of the classes.
fn put_meanings(
    method: &MethodName,
    classes: &[NameId],
    conditions: &mut Vec<Condition>,
) -> Result<(), Memory>
    ensures { OnOk result (map condition_of conditions.new.items ≡ map condition_of conditions.old.items ++ map (needed.MeansSame method.now.class method.now.meta method.now.selector) classes.now) }
{
    for class in classes {
        conditions.extend_from_slice(&[Condition::MeansSame {
            method: *method,
            to: *class,
        }])?;
    }
    Ok(())
}

/// The conditions of a method that goes down to the direct subclasses.
fn needs_of_method_down(
    alloc: Global,
    image: &Image,
    method: &MethodName,
) -> Result<Vec<Condition>, Memory>
    requires { IsOrderly image.now }
    ensures { IfOk result (λ found. map condition_of found.items ≡ model.needs (asked_by image.now.names) (number_image image.now) (commands.PushDownMethod method.now.class method.now.meta method.now.selector)) }
{
    let classes = receivers(alloc, image, *method)?;
    let mut conditions = Vec::from_array(
        alloc,
        [
            Condition::NoReflection,
            Condition::IsUserClass {
                class: method.class,
            },
            Condition::Implements(*method),
            Condition::NoSuper(*method),
        ],
    )?;
    put_meanings(method, classes.as_slice(), &mut conditions)?;
    conditions.push(Condition::Unreached {
        selector: method.selector,
    })?;
    Ok(conditions)
}

/// The conditions of the command, in their order.
fn listed<L: Ledger>(
    alloc: Global,
    image: &Image,
    command: &Command,
    kept: &Option<KeptPart>,
    steps: &mut Steps<L>,
) -> Result<Vec<Condition>, Memory>
    requires orderly { IsOrderly image.now }
    requires kept { ForSome kept.now (IsKept image.now) }
    requires known { CommandNames (λ n. n < length image.now.names) (command_of command.now) }
    ensures { IfOk result (λ found. map condition_of found.items ≡ model.needs (asked_by image.now.names) (number_image image.now) (command_of command.now)) }
{
    match command {
        Command::Rename(renaming) => needs_of_renaming(alloc, image.names(), renaming),
        Command::AddClass(new) => needs_of_new_class(alloc, new),
        Command::RemoveClass { class } => needs_of_class_removal(alloc, *class),
        Command::Variable(change) => needs_of_move(alloc, image, change),
        Command::AddMethod(new) => needs_of_new_method(alloc, &name_of(new)),
        Command::RemoveMethod(method) => needs_of_method_removal(alloc, method),
        Command::PushUpMethod(method) => needs_of_method_up(alloc, image, method),
        Command::PushDownMethod(method) => needs_of_method_down(alloc, image, method),
        Command::AddParameter(new) => needs_of_new_parameter(alloc, image, new),
        Command::RemoveParameter {
            selector,
            argument,
            to,
        } => needs_of_parameter_removal(alloc, image, *selector, *argument, *to),
        Command::RenameTemporary {
            method,
            variable,
            to,
        } => needs_of_temporary(alloc, image, method, *variable, *to),
        Command::MoveCode(change) => needs_of_code(alloc, image, change, kept, steps),
    }
}

/// The conditions of the command, in their order. Opens at most two methods.
pub(crate) fn needs<L: Ledger>(
    alloc: Global,
    image: &Image,
    command: &Command,
    kept: &Option<KeptPart>,
    steps: &mut Steps<L>,
) -> Result<Vec<Condition>, Memory>
    requires orderly { IsOrderly image.now }
    requires kept { ForSome kept.now (IsKept image.now) }
    requires known { CommandNames (λ n. n < length image.now.names) (command_of command.now) }
    ensures needed { IfOk result (λ found. map condition_of found.items ≡ model.needs (asked_by image.now.names) (number_image image.now) (command_of command.now)) }
    ensures known { IfOk result (λ found. AllByRecursion (λ c. ConditionNames (λ n. n < length image.now.names) (condition_of c)) found.items) }
    ensures concern { IfOk result (λ found. AllByRecursion (λ c. Concerns (number_image image.now) (command_of command.now) (condition_of c)) found.items) }
{
    numbers_of_all_commands();
    listed(alloc, image, command, kept, steps)
}
