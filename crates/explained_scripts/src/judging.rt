// The single command that is refused, in the image in which it is judged.
ghost use Rattle.std.specs.Prelude.{◌≡◌, ◌<◌, ℕ, List, length, map, Ok, IfOk, IfSome, OnOk};
ghost use Rattle.std.specs.List.{AllByRecursion};
ghost use Rattle.rb_base.specs.Names.{name_at};
ghost use Rattle.class_table.specs.Valid.{IsOrderly};
ghost use Rattle.class_table.specs.View.{image_of};
ghost use Rattle.command_numbers.specs.CommandNames.{CommandNames};
ghost use Rattle.command_numbers.specs.MappedCommands.{map_command};
ghost use Rattle.commands.specs.Actions.{map_action, ActionNames};
ghost use Rattle.commands.specs.Views.{action_of, command_of, HasSelf};
ghost use Rattle.ruled_model.specs.RuledScripts.{change_judged, Plainly};
ghost use Rattle.session_model.specs.Actions.{Single};
ghost use Rattle.session.specs.Log.{IsLogOf};
ghost use Rattle.why_model.specs.Refusals as model;
ghost use Rattle.explained_scripts.specs.Refused.{command_text, IsComposite, IsRefusedAction, IsRefusedStep};

use class_table::Image;
use code_command_numbers::all_commands_by_numbers;
use commands::{Action, Command, Condition, Request, VariableMove};
use composites::{first_own_false, steps_of};
use rb_base::{Memory, Steps};
use reference_index::build;
use session::Session;
use std::alloc::Global;
use std::sync::ledger::Ledger;

/// A single command that is refused.
#[derive(Drop)]
pub(crate) struct Refused {
    pub(crate) command: Command,
    /// The first of its conditions that is false, or of those that a composite has beside its steps.
    pub(crate) condition: Condition,
    /// Its number among the steps of a composite, from 1; none if it is no step.
    pub(crate) step: Option<usize>,
}

/// A command on what a composite is on, which adds no code. A single command is itself.
fn stands_for(action: Action) -> Command
    ensures texts { (f : ℕ → List ℕ) → map_command f (command_of result) ≡ model.stands_for (map_action f (action_of action)) }
    ensures names { (n : ℕ) → ActionNames (λ k. k < n) (action_of action) → CommandNames (λ k. k < n) (command_of result) }
{
    match action {
        Action::Single(command) => command,
        Action::ExtractSuperclass(new) => Command::AddClass(new),
        Action::CreateAccessors {
            class,
            variable,
            ..
        } => Command::Variable(VariableMove::InstanceUp { class, variable }),
        Action::PushUpWithMethods { class, variable } => {
            Command::Variable(VariableMove::InstanceUp { class, variable })
        }
    }
}

/// Performs a single command in a session.
fn perform<L: Ledger>(
    session: &mut Session,
    image: &mut Image,
    command: Command,
    steps: &mut Steps<L>,
) -> Result<(), Memory>
    requires log { IsLogOf image.old session.old }
    requires self_known { HasSelf image.old.names }
    requires known { CommandNames (λ n. n < length image.old.names) (command_of command) }
    ensures log { IsLogOf image.new session.new }
    ensures names { image.new.names ≡ image.old.names }
    ensures done { OnOk result (change_judged (image_of image.old) (Plainly (command_text image.old command)) ≡ Ok (image_of image.new)) }
{
    let request = Request::Perform(Action::Single(command));
    match session.step(image, request, steps) {
        Ok(()) => Ok(()),
        // No condition of it is false: the caller asked.
        Err(_) => Err(Memory),
    }
}

/// The first of these commands that is refused, each judged in the image after those before it, which becomes the image in
/// which this one is judged; none if all are accepted.
fn refused_step<L: Ledger>(
    session: &mut Session,
    image: &mut Image,
    commands: Vec<Command>,
    steps: &mut Steps<L>,
) -> Result<Option<Refused>, Memory>
    requires log { IsLogOf image.old session.old }
    requires self_known { HasSelf image.old.names }
    requires known { AllByRecursion (λ c. CommandNames (λ n. n < length image.old.names) (command_of c)) commands.items }
    ensures orderly { IsOrderly image.new }
    ensures names { image.new.names ≡ image.old.names }
    ensures found { IfOk result (λ found. IfSome found (IsRefusedStep (image_of image.old) 1 (map (λ c. Plainly (command_text image.old c)) commands.items) image.new)) }
{
    all_commands_by_numbers();
    let mut number = 0;
    for command in commands {
        number += 1;
        if let Some(condition) = session.first_false(image, &command, steps)? {
            return Ok(Some(Refused {
                command,
                condition,
                step: Some(number),
            }));
        }
        perform(session, image, command, steps)?;
    }
    Ok(None)
}

/// What is refused of a single command, if a condition of it is false.
fn refused_single<L: Ledger>(
    session: &mut Session,
    image: &Image,
    command: Command,
    steps: &mut Steps<L>,
) -> Result<Option<Refused>, Memory>
    requires log { IsLogOf image.now session.old }
    requires self_known { HasSelf image.now.names }
    requires known { CommandNames (λ n. n < length image.now.names) (command_of command) }
    ensures { IfOk result (λ found. IfSome found (IsRefusedAction (image_of image.now) (Single (command_text image.now command)) image.now)) }
{
    all_commands_by_numbers();
    match session.first_false(image, &command, steps)? {
        None => Ok(None),
        Some(condition) => Ok(Some(Refused {
            command,
            condition,
            step: None,
        })),
    }
}

/// What is refused of a composite: the composite, by a condition that it has beside its steps, or a step.
fn refused_composite<L: Ledger>(
    alloc: Global,
    session: &mut Session,
    image: &mut Image,
    action: Action,
    steps: &mut Steps<L>,
) -> Result<Option<Refused>, Memory>
    requires log { IsLogOf image.old session.old }
    requires self_known { HasSelf image.old.names }
    requires known { ActionNames (λ n. n < length image.old.names) (action_of action) }
    requires composite { IsComposite action }
    ensures orderly { IsOrderly image.new }
    ensures names { image.new.names ≡ image.old.names }
    ensures found { IfOk result (λ found. IfSome found (IsRefusedAction (image_of image.old) (map_action (name_at image.old.names) (action_of action)) image.new)) }
{
    let index = build(alloc, image, steps)?;
    if let Some(condition) = first_own_false(alloc, image, &index, &action, steps)? {
        let command = stands_for(action);
        return Ok(Some(Refused {
            command,
            condition,
            step: None,
        }));
    }
    let commands = steps_of(alloc, image, &index, action, steps)?;
    refused_step(session, image, commands, steps)
}

/// What is refused of an action that a session refuses in the image, which becomes the image in which that is judged.
pub(crate) fn refused_of<L: Ledger>(
    alloc: Global,
    session: &mut Session,
    image: &mut Image,
    action: Action,
    steps: &mut Steps<L>,
) -> Result<Option<Refused>, Memory>
    requires log { IsLogOf image.old session.old }
    requires self_known { HasSelf image.old.names }
    requires known { ActionNames (λ n. n < length image.old.names) (action_of action) }
    ensures orderly { IsOrderly image.new }
    ensures names { image.new.names ≡ image.old.names }
    ensures found { IfOk result (λ found. IfSome found (IsRefusedAction (image_of image.old) (map_action (name_at image.old.names) (action_of action)) image.new)) }
{
    match action {
        Action::Single(command) => refused_single(session, image, command, steps),
        composite => refused_composite(alloc, session, image, composite, steps),
    }
}
