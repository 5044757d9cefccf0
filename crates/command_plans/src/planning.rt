// The changes by which any command is carried out.
ghost use Rattle.std.specs.Prelude.{◌≡◌, ◌<◌, length, None, IfOk};
ghost use Rattle.std.specs.Option.{ForSome};
ghost use Rattle.class_table.specs.Valid.{IsOrderly};
ghost use Rattle.class_table.specs.View.{number_image};
ghost use Rattle.wider_slots.specs.Closed.{IsClosed};
ghost use Rattle.wider_slots.specs.Wider.{Wider};
ghost use Rattle.command_model.specs.Judged.{first_false};
ghost use Rattle.command_numbers.specs.CommandNames.{CommandNames};
ghost use Rattle.commands.specs.Views.{asked_by, command_of, HasSelf};
ghost use Rattle.reference_index.specs.Mentioned.{IsIndexOf};
ghost use Rattle.part_lookup.specs.Kept.{IsKept};
ghost use Rattle.plans.specs.Plan.{IsPlan};

use crate::code::plan_code;
use class_plans::{plan_class_removal, plan_new_class};
use class_table::Image;
use commands::Command;
use method_plans::{plan_method_down, plan_method_removal, plan_method_up, plan_new_method};
use parameter_plans::{ParameterChange, plan_parameter};
use part_lookup::KeptPart;
use plans::Plan;
use rb_base::{Memory, Steps};
use reference_index::Index;
use std::alloc::Global;
use std::sync::ledger::Ledger;
use temporary_plans::plan_temporary;
use variable_plans::plan_move;
use wider_slots::law_wider;

/// The changes by which the command is carried out, none of whose conditions may be false; first the room that they need is
/// made. Of a part that the command names no source is read if it is kept. On want of memory the image shows the same.
pub fn plan<L: Ledger>(
    alloc: Global,
    image: &mut Image,
    index: &Index,
    command: &Command,
    kept: &Option<KeptPart>,
    steps: &mut Steps<L>,
) -> Result<Plan, Memory>
    requires closed { IsClosed image.old }
    requires orderly { IsOrderly image.old }
    requires index { IsIndexOf image.old index.now }
    requires kept { ForSome kept.now (IsKept image.old) }
    requires self_known { HasSelf image.old.names }
    requires known { CommandNames (λ n. n < length image.old.names) (command_of command.now) }
    requires holds { first_false (asked_by image.old.names) (number_image image.old) (command_of command.now) ≡ None }
    ensures wider { Wider image.old image.new }
    ensures names { image.new.names ≡ image.old.names }
    ensures plan { IfOk result (λ found. IsPlan image.new (command_of command.now) found.changes found.touched.items) }
{
    law_wider();
    match command {
        Command::Rename(renaming) => rename_plans::plan(alloc, image, index, renaming, steps),
        Command::AddClass(new) => plan_new_class(alloc, image, new),
        Command::RemoveClass { class } => plan_class_removal(alloc, image, *class),
        Command::Variable(change) => plan_move(alloc, image, change),
        Command::AddMethod(new) => plan_new_method(alloc, image, new),
        Command::RemoveMethod(method) => plan_method_removal(alloc, image, index, *method),
        Command::PushUpMethod(method) => plan_method_up(alloc, image, index, *method),
        Command::PushDownMethod(method) => plan_method_down(alloc, image, index, *method),
        Command::AddParameter(new) => {
            plan_parameter(alloc, image, index, &ParameterChange::Added(new), steps)
        }
        Command::RemoveParameter {
            selector,
            argument,
            to,
        } => {
            let parameter = ParameterChange::Removed {
                selector: *selector,
                argument: *argument,
                to: *to,
            };
            plan_parameter(alloc, image, index, &parameter, steps)
        }
        Command::RenameTemporary {
            method,
            variable,
            to,
        } => plan_temporary(alloc, image, index, *method, *variable, *to, steps),
        Command::MoveCode(change) => plan_code(alloc, image, index, change, kept, steps),
    }
}
