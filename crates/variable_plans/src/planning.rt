// The changes of a move of a variable.
ghost use Rattle.std.specs.Prelude.{◌≡◌, ◌<◌, length, None, IfOk};
ghost use Rattle.class_table.specs.Valid.{IsOrderly};
ghost use Rattle.class_table.specs.View.{number_image};
ghost use Rattle.command_model.specs.Judged.{first_false};
ghost use Rattle.command_numbers.specs.CommandNames.{CommandNames};
ghost use Rattle.commands.specs.Views.{asked_by, move_command};
ghost use Rattle.plans.specs.Plan.{IsPlan};
ghost use Rattle.variable_plans.specs.Records as records;

use crate::records::given_record;
use crate::route::route_of;
use change_set::{Change, Changes};
use class_table::Image;
use command_numbers::numbers_of_commands;
use commands::VariableMove;
use plans::Plan;
use rb_base::Memory;
use std::alloc::Global;

/// The changes of the classes that the variable leaves, and of those to which it comes, in the order of the live classes.
fn class_changes(alloc: Global, image: &Image, change: &VariableMove) -> Result<Changes, Memory>
    ensures { IfOk result (λ changes. changes ≡ records.planned image.now change.now) }
{
    let mut changes = Changes::new(alloc);
    let Some(route) = route_of(image, change) else {
        return Ok(changes);
    };
    for id in image.classes() {
        if let Some(rec) = given_record(alloc, image, *id, &route)? {
            changes.push(Change::Class { id: *id, rec })?;
        }
    }
    Ok(changes)
}

/// The changes by which a variable comes, goes or moves, where no condition is false. No code changes.
pub fn plan_move(alloc: Global, image: &Image, change: &VariableMove) -> Result<Plan, Memory>
    requires orderly { IsOrderly image.now }
    requires known { CommandNames (λ n. n < length image.now.names) (move_command change.now) }
    requires holds { first_false (asked_by image.now.names) (number_image image.now) (move_command change.now) ≡ None }
    ensures { IfOk result (λ found. IsPlan image.now (move_command change.now) found.changes found.touched.items) }
{
    numbers_of_commands();
    let changes = class_changes(alloc, image, change)?;
    Ok(Plan {
        changes,
        touched: Vec::new(alloc),
    })
}
