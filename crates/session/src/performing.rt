// Commands that are carried out one after the other.
ghost use Rattle.std.specs.Prelude.{◌≡◌, ◌<◌, ◌+◌, ◌≤◌, ◌++◌, [], ◌∷◌, length, map, vec_len, OnOk, OnErr};
ghost use Rattle.std.specs.List.{AllByRecursion};
ghost use Rattle.std.specs.Vec.{vec_capacity};
ghost use Rattle.rb_base.specs.Names.{name_at, text_eq};
ghost use Rattle.class_table.specs.Slots.{Slots};
ghost use Rattle.change_set.specs.Changes.{all_applied, inverses, CanApplyAll};
ghost use Rattle.command_numbers.specs.CommandNames.{CommandNames};
ghost use Rattle.command_numbers.specs.MappedCommands.{map_command};
ghost use Rattle.commands.specs.Views.{command_of, HasSelf};
ghost use Rattle.reference_index.specs.Mentioned.{IsIndexOf, DiffersAtMost};
ghost use Rattle.session.specs.Log.{with_command};
ghost use Rattle.run_model.specs.Values.{Name};
ghost use Rattle.rename_model.specs.ClassRenamed.{canonical};
ghost use Rattle.class_table.specs.View.{image_of};
ghost use Rattle.session_model.specs.Steps as model;
ghost use Rattle.commands.specs.Actions.{map_action, ActionNames};
ghost use Rattle.commands.specs.Views.{action_of};
ghost use Rattle.session.specs.Stepping.{IsUnderWay, IsCarriedOut};
ghost use Rattle.session.specs.Grouping.{IsActedOut};

use crate::done::{Done, DoneCommand, do_one};
use crate::refusal::StepRefusal;
use crate::renames::{Renames, renames_of};
use class_table::{Image, Place};
use code_command_numbers::all_verdicts_by_numbers;
use command_plans::plan;
use commands::{Action, Command, NewClass};
use composites::{first_own_false, steps_of};
use conditions::{first_false, kept_of};
use plans::Plan;
use rb_base::{Memory, Steps};
use reference_index::Index;
use std::alloc::Global;
use std::sync::ledger::Ledger;

/// Puts a command that was done behind others, in room that was made, and the places that it changed.
fn note(
    commands: &mut Vec<DoneCommand>,
    touched: &mut Vec<Place>,
    command: DoneCommand,
    places: &[Place],
)
    requires commands { vec_len commands.old < vec_capacity commands.old }
    requires touched { vec_len touched.old + length places.now ≤ vec_capacity touched.old }
    ensures commands { commands.new.items ≡ commands.old.items ++ command ∷ [] }
    ensures touched { touched.new.items ≡ touched.old.items ++ places.now }
{
    let _ = commands.push(command);
    let _ = touched.extend_from_slice(places);
}

/// Carries out the plan of a command behind others.
pub(crate) fn carry_out<L: Ledger>(
    image: &mut Image,
    index: &mut Index,
    planned: Plan,
    renames: Renames,
    done: &mut Done,
    steps: &mut Steps<L>,
) -> Result<(), Memory>
    requires { CanApplyAll image.old planned.changes }
    ensures image { OnOk result (image.new ≡ all_applied image.old planned.changes) }
    ensures index { OnOk result ((s : Slots) → IsIndexOf s index.old → DiffersAtMost s image.new planned.touched.items → IsIndexOf image.new index.new) }
    ensures done { OnOk result (done.new ≡ with_command done.old (record { changes = inverses image.old planned.changes; renames = renames }) planned.touched.items) }
    ensures same_image { OnErr result (image.new ≡ image.old) }
    ensures same_index { OnErr result (index.new ≡ index.old) }
    ensures same_done { OnErr result (done.new ≡ done.old) }
{
    done.commands.reserve(1)?;
    done.touched.reserve(planned.touched.len())?;
    let Plan {
        mut changes,
        touched,
    } = planned;
    do_one(image, index, &mut changes, &touched, steps)?;
    note(
        &mut done.commands,
        &mut done.touched,
        DoneCommand { changes, renames },
        &touched,
    );
    Ok(())
}

/// Carries a command out behind others, if none of its conditions is false. Where it is refused there may be more room.
fn judge_and_carry_out<L: Ledger>(
    alloc: Global,
    image: &mut Image,
    index: &mut Index,
    command: &Command,
    done: &mut Done,
    steps: &mut Steps<L>,
) -> Result<(), StepRefusal>
    requires under_way { (first : Slots) × IsUnderWay first image.old index.old done.old }
    requires self_known { HasSelf image.old.names }
    requires known { CommandNames (λ n. n < length image.old.names) (command_of command.now) }
    ensures { IsCarriedOut image.old index.old done.old (map_command (name_at image.old.names) (command_of command.now) ∷ []) image.new index.new done.new result }
{
    all_verdicts_by_numbers();
    let kept = kept_of(alloc, image, command, steps)?;
    if let Some(condition) = first_false(alloc, image, index, command, &kept, steps)? {
        return Err(StepRefusal::Condition(condition));
    }
    let renames = renames_of(image, command);
    let planned = plan(alloc, image, index, command, &kept, steps)?;
    carry_out(image, index, planned, renames, done, steps)?;
    Ok(())
}

/// Makes the tables ready by which classes and methods are found at once, where a change before made them unready. Where memory
/// is wanting, the search is the slow one.
fn make_ready(image: &mut Image)
    ensures { image.new ≡ image.old }
{
    let _ = image.reindex();
}

/// The same, with what it looks for made ready.
fn perform_one<L: Ledger>(
    alloc: Global,
    image: &mut Image,
    index: &mut Index,
    command: &Command,
    done: &mut Done,
    steps: &mut Steps<L>,
) -> Result<(), StepRefusal>
    requires under_way { (first : Slots) × IsUnderWay first image.old index.old done.old }
    requires self_known { HasSelf image.old.names }
    requires known { CommandNames (λ n. n < length image.old.names) (command_of command.now) }
    ensures { IsCarriedOut image.old index.old done.old (map_command (name_at image.old.names) (command_of command.now) ∷ []) image.new index.new done.new result }
{
    make_ready(image);
    judge_and_carry_out(alloc, image, index, command, done, steps)
}

/// Carries commands out in order behind others, or those before the first one that is refused.
pub(crate) fn perform_each<L: Ledger>(
    alloc: Global,
    image: &mut Image,
    index: &mut Index,
    commands: &[Command],
    done: &mut Done,
    steps: &mut Steps<L>,
) -> Result<(), StepRefusal>
    requires under_way { (first : Slots) × IsUnderWay first image.old index.old done.old }
    requires self_known { HasSelf image.old.names }
    requires known { AllByRecursion (λ c. CommandNames (λ n. n < length image.old.names) (command_of c)) commands.now }
    ensures { IsCarriedOut image.old index.old done.old (map (λ c. map_command (name_at image.old.names) (command_of c)) commands.now) image.new index.new done.new result }
{
    for command in commands {
        perform_one(alloc, image, index, command, done, steps)?;
    }
    Ok(())
}

/// Carries out the single commands of an action in order after others.
fn perform_steps<L: Ledger>(
    alloc: Global,
    image: &mut Image,
    index: &mut Index,
    action: Action,
    done: &mut Done,
    steps: &mut Steps<L>,
) -> Result<(), StepRefusal>
    requires under_way { (first : Slots) × IsUnderWay first image.old index.old done.old }
    requires self_known { HasSelf image.old.names }
    requires named { ActionNames (λ n. n < length image.old.names) (action_of action) }
    ensures { IsCarriedOut image.old index.old done.old (model.steps_of text_eq (image_of image.old) canonical (map_action (name_at image.old.names) (action_of action))) image.new index.new done.new result }
{
    let commands = steps_of(alloc, image, index, action, steps)?;
    perform_each(alloc, image, index, commands.as_slice(), done, steps)
}

/// The same of an action that is not given away; of a composite the names are copied.
fn perform_steps_of<L: Ledger>(
    alloc: Global,
    image: &mut Image,
    index: &mut Index,
    action: &Action,
    done: &mut Done,
    steps: &mut Steps<L>,
) -> Result<(), StepRefusal>
    requires under_way { (first : Slots) × IsUnderWay first image.old index.old done.old }
    requires self_known { HasSelf image.old.names }
    requires named { ActionNames (λ n. n < length image.old.names) (action_of action.now) }
    ensures { IsCarriedOut image.old index.old done.old (model.steps_of text_eq (image_of image.old) canonical (map_action (name_at image.old.names) (action_of action.now))) image.new index.new done.new result }
{
    match action {
        Action::Single(command) => perform_one(alloc, image, index, command, done, steps),
        Action::CreateAccessors {
            class,
            variable,
            setter,
            parameter,
        } => {
            let copy = Action::CreateAccessors {
                class: *class,
                variable: *variable,
                setter: *setter,
                parameter: *parameter,
            };
            perform_steps(alloc, image, index, copy, done, steps)
        }
        Action::ExtractSuperclass(new) => {
            let copy = NewClass {
                name: new.name,
                superclass: new.superclass,
                under: new.under.try_copy(alloc)?,
            };
            perform_steps(
                alloc,
                image,
                index,
                Action::ExtractSuperclass(copy),
                done,
                steps,
            )
        }
        Action::PushUpWithMethods { class, variable } => {
            let copy = Action::PushUpWithMethods {
                class: *class,
                variable: *variable,
            };
            perform_steps(alloc, image, index, copy, done, steps)
        }
    }
}

/// Carries an action out after others, if none of its own conditions is false and none of its single commands is refused.
pub(crate) fn perform_action<L: Ledger>(
    alloc: Global,
    image: &mut Image,
    index: &mut Index,
    action: &Action,
    done: &mut Done,
    steps: &mut Steps<L>,
) -> Result<(), StepRefusal>
    requires under_way { (first : Slots) × IsUnderWay first image.old index.old done.old }
    requires self_known { HasSelf image.old.names }
    requires named { ActionNames (λ n. n < length image.old.names) (action_of action.now) }
    ensures { IsActedOut image.old index.old done.old (map_action (name_at image.old.names) (action_of action.now)) image.new index.new done.new result }
{
    if let Some(condition) = first_own_false(alloc, image, index, action, steps)? {
        return Err(StepRefusal::Condition(condition));
    }
    perform_steps_of(alloc, image, index, action, done, steps)
}
