// The single commands that actions are.
ghost use Rattle.std.specs.Prelude.{◌≡◌, ◌<◌, nat_eq, length, map, IfOk};
ghost use Rattle.std.specs.List.{AllByRecursion};
ghost use Rattle.rb_base.specs.Names.{name_at, text_eq};
ghost use Rattle.rename_model.specs.ClassRenamed.{canonical};
ghost use Rattle.command_model.specs.Numbers.{number_writing};
ghost use Rattle.command_numbers.specs.CommandNames.{CommandNames};
ghost use Rattle.command_numbers.specs.MappedCommands.{map_command};
ghost use Rattle.session_model.specs.Actions.{ExtractSuperclass, PushUpWithMethods};
ghost use Rattle.session_model.specs.Steps as model;
ghost use Rattle.commands.specs.Actions.{map_action, ActionNames};
ghost use Rattle.commands.specs.Views.{action_of, command_of};
ghost use Rattle.class_table.specs.Valid.{IsOrderly};
ghost use Rattle.class_table.specs.View.{image_of, number_image};
ghost use Rattle.reference_index.specs.Mentioned.{IsIndexOf};

use crate::accessors::accessors;
use crate::pushes::{put, put_method_pushes, shared_pushes};
use action_numbers::actions_by_numbers;
use class_table::Image;
use commands::{Action, Command, NewClass, VariableMove};
use rb_base::{Memory, NameId, Steps};
use reference_index::Index;
use std::alloc::Global;
use std::sync::ledger::Ledger;

/// The class comes, and the instance variables that all classes under it have go up to it.
fn extraction(alloc: Global, image: &Image, new: NewClass) -> Result<Vec<Command>, Memory>
    ensures { IfOk result (λ found. map command_of found.items
        ≡ model.steps_of nat_eq (number_image image.now) (number_writing image.now.names) (ExtractSuperclass new.name new.superclass new.under)) }
{
    let mut pushes = shared_pushes(alloc, image, new.under.as_slice())?;
    let mut commands = Vec::new(alloc);
    put(Command::AddClass(new), &mut commands)?;
    commands.append(&mut pushes)?;
    Ok(commands)
}

/// The instance variable goes up, and then the methods that name it.
fn push_with_methods<L: Ledger>(
    alloc: Global,
    image: &Image,
    index: &Index,
    class: NameId,
    variable: NameId,
    steps: &mut Steps<L>,
) -> Result<Vec<Command>, Memory>
    requires orderly { IsOrderly image.now }
    requires index { IsIndexOf image.now index.now }
    ensures { IfOk result (λ found. map command_of found.items
        ≡ model.steps_of nat_eq (number_image image.now) (number_writing image.now.names) (PushUpWithMethods class variable)) }
{
    let mut commands = Vec::new(alloc);
    let up = VariableMove::InstanceUp { class, variable };
    put(Command::Variable(up), &mut commands)?;
    put_method_pushes(alloc, image, index, class, variable, &mut commands, steps)?;
    Ok(commands)
}

/// The single commands of the action, in order, by the numbers of names.
fn commands_of<L: Ledger>(
    alloc: Global,
    image: &Image,
    index: &Index,
    action: Action,
    steps: &mut Steps<L>,
) -> Result<Vec<Command>, Memory>
    requires orderly { IsOrderly image.now }
    requires index { IsIndexOf image.now index.now }
    requires known { ActionNames (λ n. n < length image.now.names) (action_of action) }
    ensures { IfOk result (λ found. map command_of found.items
        ≡ model.steps_of nat_eq (number_image image.now) (number_writing image.now.names) (action_of action)) }
{
    match action {
        Action::Single(command) => {
            let mut commands = Vec::new(alloc);
            put(command, &mut commands)?;
            Ok(commands)
        }
        Action::CreateAccessors {
            class,
            variable,
            setter,
            parameter,
        } => accessors(alloc, image, class, variable, setter, parameter),
        Action::ExtractSuperclass(new) => extraction(alloc, image, new),
        Action::PushUpWithMethods { class, variable } => {
            push_with_methods(alloc, image, index, class, variable, steps)
        }
    }
}

/// The single commands of the action, in order, with names taken from the image. The error is want of memory. Of methods only
/// those are opened of which the index says that they mention the variable that goes up.
pub fn steps_of<L: Ledger>(
    alloc: Global,
    image: &Image,
    index: &Index,
    action: Action,
    steps: &mut Steps<L>,
) -> Result<Vec<Command>, Memory>
    requires orderly { IsOrderly image.now }
    requires index { IsIndexOf image.now index.now }
    requires known { ActionNames (λ n. n < length image.now.names) (action_of action) }
    ensures commands { IfOk result (λ found. map (λ c. map_command (name_at image.now.names) (command_of c)) found.items
        ≡ model.steps_of text_eq (image_of image.now) canonical (map_action (name_at image.now.names) (action_of action))) }
    ensures known { IfOk result (λ found. AllByRecursion (λ c. CommandNames (λ n. n < length image.now.names) (command_of c)) found.items) }
{
    actions_by_numbers();
    commands_of(alloc, image, index, action, steps)
}
