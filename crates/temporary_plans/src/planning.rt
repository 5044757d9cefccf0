// The changes by which an argument, a parameter or a temporary gets another name.
ghost use Rattle.std.specs.Prelude.{◌≡◌, ℕ, ◌<◌, [], length, None, IfOk};
ghost use Rattle.tree_model.specs.AllNames.{MethodNames};
ghost use Rattle.st_tree.specs.View.{method_of};
ghost use Rattle.class_table.specs.Valid.{IsOrderly};
ghost use Rattle.class_table.specs.View.{number_image};
ghost use Rattle.command_model.specs.Commands.{CommandOf, RenameTemp};
ghost use Rattle.command_model.specs.Judged.{first_false};
ghost use Rattle.command_numbers.specs.CommandNames.{CommandNames};
ghost use Rattle.commands.specs.Views.{asked_by};
ghost use Rattle.plans.specs.Plan.{IsPlan};
ghost use Rattle.reference_index.specs.Mentioned.{IsIndexOf};
ghost use Rattle.temporary_plans.specs.Retold.{Retells};

use crate::retold::put_retold;
use change_set::Changes;
use class_table::Image;
use commands::MethodName;
use plans::Plan;
use rb_base::{Memory, NameId, Steps};
use reference_index::Index;
use st_tree::Method;
use std::alloc::Global;
use std::sync::ledger::Ledger;
use temporary_code::renamed_temporary;
use users_methods::{is_listed, users_method, users_slots};

/// No changes, which takes no memory.
pub fn no_changes(alloc: Global) -> Plan
    ensures changes { result.changes ≡ [] }
    ensures touched { result.touched.items ≡ [] }
{
    Plan {
        changes: Changes::new(alloc),
        touched: Vec::new(alloc),
    }
}

/// The changes by which the user's methods of a class, a side and a selector have another tree, whose comments are in normal
/// form. Want of memory, if there is not enough of it for the changes.
pub fn plan_retold<L: Ledger>(
    alloc: Global,
    image: &Image,
    index: &Index,
    method: &MethodName,
    tree: &Method,
    steps: &mut Steps<L>,
) -> Result<Plan, Memory>
    requires orderly { IsOrderly image.now }
    requires index { IsIndexOf image.now index.now }
    requires known { MethodNames (λ n. n < length image.now.names) (method_of tree.now) }
    ensures { IfOk result (λ found. (command : CommandOf ℕ) → Retells image.now method.now tree.now command → IsPlan image.now command found.changes found.touched.items) }
{
    let found = users_slots(alloc, image, index, method)?;
    let own = found.as_slice();
    let mut plan = no_changes(alloc);
    for slot in image.methods() {
        if is_listed(own, *slot) {
            put_retold(alloc, image, *slot, tree, &mut plan, steps)?;
        }
    }
    Ok(plan)
}

/// The change by which the argument, the parameter or the temporary of the method gets another name, where no condition of
/// that is false.
pub fn plan_temporary<L: Ledger>(
    alloc: Global,
    image: &Image,
    index: &Index,
    method: MethodName,
    variable: NameId,
    to: NameId,
    steps: &mut Steps<L>,
) -> Result<Plan, Memory>
    requires orderly { IsOrderly image.now }
    requires index { IsIndexOf image.now index.now }
    requires known { CommandNames (λ n. n < length image.now.names) (RenameTemp method.class method.meta method.selector variable to) }
    requires holds { first_false (asked_by image.now.names) (number_image image.now) (RenameTemp method.class method.meta method.selector variable to) ≡ None }
    ensures { IfOk result (λ found. IsPlan image.now (RenameTemp method.class method.meta method.selector variable to) found.changes found.touched.items) }
{
    // The user has the method, so it is found.
    let Some(old) = users_method(image, method, steps) else {
        return Ok(no_changes(alloc));
    };
    let tree = renamed_temporary(alloc, old.tree, image.names(), variable, to)?;
    plan_retold(alloc, image, index, &method, &tree, steps)
}
