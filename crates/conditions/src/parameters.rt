// The conditions of commands that change parameters and temporaries.
ghost use Rattle.std.specs.Prelude.{◌≡◌, ◌<◌, ◌++◌, List, length, map, option_map, IfOk, OnOk};
ghost use Rattle.std.specs.List.{cons_option};
ghost use Rattle.class_table.specs.Valid.{IsOrderly};
ghost use Rattle.class_table.specs.View.{number_image};
ghost use Rattle.command_model.specs.CodeNeeds.{in_no_implementor};
ghost use Rattle.command_model.specs.Commands as commands;
ghost use Rattle.command_model.specs.Conditions.{ConditionOf};
ghost use Rattle.command_model.specs.Needs as model;
ghost use Rattle.commands.specs.Views.{asked_by, condition_of};
ghost use Rattle.conditions.specs.Unnamed.{unnamed_at};

use crate::needed::{arity_of, needs_of_selector};
use class_table::{Image, MethodSlot};
use commands::{Condition, MethodName, NameKind, NewParameter};
use rb_base::{Memory, NameId};
use std::alloc::Global;

/// The condition that the method in a slot, if it is live, one of the user and has the selector, does not name the name.
fn unnamed_at(image: &Image, slot: MethodSlot, selector: NameId, name: NameId) -> Option<Condition>
    ensures { option_map condition_of result ≡ unnamed_at image.now selector name slot }
{
    let Some(info) = image.method_info(slot) else {
        return None;
    };
    if info.kernel || selector != info.selector {
        return None;
    }
    let class = image.class_rec(info.class)?;
    Some(Condition::NotIn {
        method: MethodName {
            class: class.name,
            meta: info.meta,
            selector,
        },
        variable: name,
    })
}

/// Puts the condition at the end, if there is one.
fn put_found(found: Option<Condition>, conditions: &mut Vec<Condition>) -> Result<(), Memory>
    ensures { (rest : List (ConditionOf _)) → OnOk result (map condition_of conditions.new.items ++ rest ≡ map condition_of conditions.old.items ++ cons_option (option_map condition_of found) rest) }
{
    match found {
        None => Ok(()),
        Some(condition) => {
            conditions.extend_from_slice(&[condition])?;
            Ok(())
        }
    }
}

/// Puts the conditions at the end that no method of the user with the selector names the name.
fn put_unnamed(
    image: &Image,
    selector: NameId,
    name: NameId,
    conditions: &mut Vec<Condition>,
) -> Result<(), Memory>
    requires { IsOrderly image.now }
    ensures { OnOk result (map condition_of conditions.new.items ≡ map condition_of conditions.old.items ++ in_no_implementor (asked_by image.now.names) (number_image image.now) selector name) }
{
    let slots = image.methods();
    for slot in slots {
        put_found(unnamed_at(image, *slot, selector, name), conditions)?;
    }
    Ok(())
}

/// The conditions of a parameter that comes.
pub(crate) fn needs_of_new_parameter(
    alloc: Global,
    image: &Image,
    new: &NewParameter,
) -> Result<Vec<Condition>, Memory>
    requires orderly { IsOrderly image.now }
    requires known { new.now.selector < length image.now.names }
    ensures { IfOk result (λ found. map condition_of found.items ≡ model.needs (asked_by image.now.names) (number_image image.now) (commands.AddParameter new.now.selector new.now.to new.now.parameter new.now.passed)) }
{
    let Some(count) = arity_of(image.names(), new.selector).checked_add(1) else {
        return Err(Memory);
    };
    let mut conditions = needs_of_selector(alloc, new.selector, count, new.to)?;
    let name = Condition::GoodName {
        name: new.parameter,
        kind: NameKind::Variable,
    };
    conditions.extend_from_slice(&[name])?;
    put_unnamed(image, new.selector, new.parameter, &mut conditions)?;
    conditions.extend_from_slice(&[Condition::AtomLiteral, Condition::Shallow])?;
    Ok(conditions)
}

/// The conditions of a parameter that goes.
pub(crate) fn needs_of_parameter_removal(
    alloc: Global,
    image: &Image,
    selector: NameId,
    argument: usize,
    to: NameId,
) -> Result<Vec<Condition>, Memory>
    requires known { selector < length image.now.names }
    ensures { IfOk result (λ found. map condition_of found.items ≡ model.needs (asked_by image.now.names) (number_image image.now) (commands.RemoveParameter selector argument to)) }
{
    let count = arity_of(image.names(), selector).saturating_sub(1);
    let mut conditions = needs_of_selector(alloc, selector, count, to)?;
    conditions.extend_from_slice(&[
        Condition::ParameterUnused { selector, argument },
        Condition::PlainArguments { selector, argument },
    ])?;
    Ok(conditions)
}

/// The conditions of the renaming of an argument, a parameter or a temporary of a method.
pub(crate) fn needs_of_temporary(
    alloc: Global,
    image: &Image,
    method: &MethodName,
    variable: NameId,
    to: NameId,
) -> Result<Vec<Condition>, Memory>
    ensures { IfOk result (λ found. map condition_of found.items ≡ model.needs (asked_by image.now.names) (number_image image.now) (commands.RenameTemp method.now.class method.now.meta method.now.selector variable to)) }
{
    let conditions = Vec::from_array(
        alloc,
        [
            Condition::NoReflection,
            Condition::IsUserClass {
                class: method.class,
            },
            Condition::Implements(*method),
            Condition::Declared {
                method: *method,
                variable,
            },
            Condition::GoodName {
                name: to,
                kind: NameKind::Variable,
            },
            Condition::NotIn {
                method: *method,
                variable: to,
            },
        ],
    )?;
    Ok(conditions)
}
