// The witnesses of the conditions of temporaries.
ghost use Rattle.std.specs.Prelude.{◌≡◌, ◌++◌, OnOk};
ghost use Rattle.class_table.specs.Valid.{IsOrderly};
ghost use Rattle.class_table.specs.View.{number_image};
ghost use Rattle.commands.specs.Views.{asked_by};
ghost use Rattle.refusal_witnesses.specs.Refused.{of_method};
ghost use Rattle.witness_lists.specs.Views.{shown};
ghost use Rattle.part_witnesses.specs.Held.{IsHeld, held_as};
ghost use Rattle.part_witnesses.specs.Standing.{assigned_standing, temporary_standing};

use crate::declarations::further_declarations;
use crate::held::{Held, users_held};
use crate::lets::{changed_names, new_controls, no_let};
use class_table::Image;
use commands::{Condition, MethodName};
use let_code::let_of;
use rb_base::{Memory, NameId, Steps};
use std::alloc::Global;
use std::sync::ledger::Ledger;
use witness_lists::Witness;

/// Appends what is in the way of the condition of the one assignment to a temporary; nothing, if there is none, or if it is no
/// condition of it.
fn assigned_standing(
    alloc: Global,
    image: &Image,
    condition: &Condition,
    method: &Held<'_>,
    variable: NameId,
    found: &mut Vec<Witness>,
) -> Result<(), Memory>
    requires orderly { IsOrderly image.now }
    requires held { IsHeld image.now method.now }
    ensures { OnOk result (shown image.now found.new.items ≡ shown image.now found.old.items ++ assigned_standing image.now condition.now variable (held_as image.now.classes method.now)) }
{
    let Some(assignment) = let_of(alloc, image.names(), method.tree, variable)? else {
        return Ok(());
    };
    match condition {
        Condition::NoCapture { .. } => {
            changed_names(alloc, image, method, variable, &assignment, found)
        }
        Condition::NoNewControl { .. } => {
            new_controls(alloc, image, method, variable, &assignment, found)
        }
        _ => Ok(()),
    }
}

/// Appends what is in the way of the condition of a temporary of the method; nothing, if it is no condition of it.
fn standing(
    alloc: Global,
    image: &Image,
    condition: &Condition,
    method: &Held<'_>,
    variable: NameId,
    found: &mut Vec<Witness>,
) -> Result<(), Memory>
    requires orderly { IsOrderly image.now }
    requires held { IsHeld image.now method.now }
    ensures { OnOk result (shown image.now found.new.items ≡ shown image.now found.old.items ++ temporary_standing image.now condition.now variable (held_as image.now.classes method.now)) }
{
    match condition {
        Condition::Declared { .. } => further_declarations(alloc, image, method, variable, found),
        Condition::LetForm { .. } => no_let(alloc, image, method, variable, found),
        Condition::NoCapture { .. } | Condition::NoNewControl { .. } => {
            assigned_standing(alloc, image, condition, method, variable, found)
        }
        _ => Ok(()),
    }
}

/// Appends what is in the way of the condition of the temporary of a user's method; nothing, if there is no such method, or if
/// it is no condition of a temporary. Counts at most one step. Want of memory, if there is not enough of it to look.
pub fn temporary_witnesses<L: Ledger>(
    alloc: Global,
    image: &Image,
    condition: &Condition,
    method: MethodName,
    variable: NameId,
    found: &mut Vec<Witness>,
    steps: &mut Steps<L>,
) -> Result<(), Memory>
    requires { IsOrderly image.now }
    ensures { OnOk result (shown image.now found.new.items ≡ shown image.now found.old.items ++ of_method (asked_by image.now.names) (number_image image.now) method.class method.meta method.selector (temporary_standing image.now condition.now variable)) }
{
    match users_held(image, method, steps) {
        None => Ok(()),
        Some(method) => standing(alloc, image, condition, &method, variable, found),
    }
}
