// The conditions that composites have beside those of their single commands.
ghost use Rattle.std.specs.Prelude.{◌≡◌, ◌<◌, length, option_map, IfOk};
ghost use Rattle.rb_base.specs.Names.{name_at};
ghost use Rattle.command_model.specs.Asked.{text_asked};
ghost use Rattle.command_numbers.specs.MappedCommands.{map_condition};
ghost use Rattle.session_model.specs.OwnConditions as own;
ghost use Rattle.commands.specs.Actions.{map_action, ActionNames};
ghost use Rattle.commands.specs.Views.{action_of, asked_by, condition_of};
ghost use Rattle.class_table.specs.Valid.{IsOrderly};
ghost use Rattle.class_table.specs.View.{image_of, number_image};
ghost use Rattle.reference_index.specs.Mentioned.{IsIndexOf};

use action_numbers::actions_by_numbers;
use class_questions::{has_variable, is_user_class};
use class_table::Image;
use commands::{Action, Condition};
use conditions::has_no_reflection;
use name_meanings::VariableKind;
use rb_base::{Memory, Steps};
use reference_index::Index;
use std::alloc::Global;
use std::sync::ledger::Ledger;

/// The first condition that the action has of its own and that is false, by the numbers of names.
fn first_false<L: Ledger>(
    alloc: Global,
    image: &Image,
    index: &Index,
    action: &Action,
    steps: &mut Steps<L>,
) -> Result<Option<Condition>, Memory>
    requires orderly { IsOrderly image.now }
    requires index { IsIndexOf image.now index.now }
    ensures { IfOk result (λ found. option_map condition_of found ≡ own.first_own_false (asked_by image.now.names) (number_image image.now) (action_of action.now)) }
{
    if let Action::Single(_) = action {
        return Ok(None);
    }
    if !has_no_reflection(alloc, image, index, steps)? {
        return Ok(Some(Condition::NoReflection));
    }
    if let Action::CreateAccessors {
        class,
        variable,
        ..
    } = action
    {
        let (class, variable) = (*class, *variable);
        if !is_user_class(image, class) {
            return Ok(Some(Condition::IsUserClass { class }));
        }
        if !has_variable(image, VariableKind::Instance, class, variable) {
            return Ok(Some(Condition::HasVariable { class, variable }));
        }
    }
    Ok(None)
}

/// The first condition that the action has of its own and that is false; a single command has its conditions in its step.
/// The error is want of memory.
pub fn first_own_false<L: Ledger>(
    alloc: Global,
    image: &Image,
    index: &Index,
    action: &Action,
    steps: &mut Steps<L>,
) -> Result<Option<Condition>, Memory>
    requires orderly { IsOrderly image.now }
    requires index { IsIndexOf image.now index.now }
    requires known { ActionNames (λ n. n < length image.now.names) (action_of action.now) }
    ensures numbers { IfOk result (λ found. option_map condition_of found ≡ own.first_own_false (asked_by image.now.names) (number_image image.now) (action_of action.now)) }
    ensures texts { IfOk result (λ found. option_map (map_condition (name_at image.now.names)) (option_map condition_of found)
        ≡ own.first_own_false text_asked (image_of image.now) (map_action (name_at image.now.names) (action_of action.now))) }
{
    actions_by_numbers();
    first_false(alloc, image, index, action, steps)
}
