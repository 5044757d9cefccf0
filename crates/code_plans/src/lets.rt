// The changes by which temporaries come and go.
ghost use Rattle.std.specs.Prelude.{◌≡◌, ℕ, ◌<◌, length, Some, IfOk};
ghost use Rattle.image_model.specs.Image.{EntryOf};
ghost use Rattle.class_table.specs.Valid.{IsOrderly};
ghost use Rattle.class_table.specs.View.{number_image};
ghost use Rattle.command_model.specs.CodeEffects.{method_at};
ghost use Rattle.commands.specs.Views.{asked_by, code_command};
ghost use Rattle.commands.specs.declared.command.CodeMove.TheVariants as code;
ghost use Rattle.part_questions.specs.Parts.{part_of};
ghost use Rattle.plans.specs.Plan.{IsPlan};
ghost use Rattle.reference_index.specs.Mentioned.{IsIndexOf};

use class_table::Image;
use commands::{MethodName, MethodPart};
use let_code::{let_of, temporary_extracted, temporary_inlined};
use parameter_questions::users_method;
use plans::Plan;
use rb_base::{Memory, NameId, Steps};
use reference_index::Index;
use st_tree::Part;
use std::alloc::Global;
use std::sync::ledger::Ledger;
use temporary_plans::{no_changes, plan_retold};

/// The change by which a temporary stands in place of an expression, the part of the method that `found` says, and is assigned
/// before the statement that has it. Where the user has no such method, or the part is no expression, there is no change. Want
/// of memory, if there is not enough of it for the change.
pub fn plan_extracted_temporary<L: Ledger>(
    alloc: Global,
    image: &Image,
    index: &Index,
    part: MethodPart,
    found: &Part,
    variable: NameId,
    steps: &mut Steps<L>,
) -> Result<Plan, Memory>
    requires orderly { IsOrderly image.now }
    requires index { IsIndexOf image.now index.now }
    requires known { variable < length image.now.names }
    requires found { (m : EntryOf ℕ) → method_at (asked_by image.now.names) (number_image image.now) part.method.class part.method.meta part.method.selector ≡ Some m →
        (asked_by image.now.names).part_of m.source part.from part.to ≡ Some (part_of found.now) }
    ensures { IfOk result (λ plan. IsPlan image.now (code_command (code.ExtractTemporary part variable)) plan.changes plan.touched.items) }
{
    let path = match found {
        Part::Expression { path } => path,
        Part::Run { .. } => return Ok(no_changes(alloc)),
    };
    let Some(tree) = users_method(image, part.method, steps) else {
        return Ok(no_changes(alloc));
    };
    let Some(after) = temporary_extracted(alloc, tree, path, variable)? else {
        return Ok(no_changes(alloc));
    };
    plan_retold(alloc, image, index, &part.method, &after, steps)
}

/// The change by which what is assigned to a temporary comes in its place. Where the user has no such method, or the temporary
/// has no one assignment that may go, there is no change. Want of memory, if there is not enough of it for the change.
pub fn plan_inlined_temporary<L: Ledger>(
    alloc: Global,
    image: &Image,
    index: &Index,
    method: MethodName,
    variable: NameId,
    steps: &mut Steps<L>,
) -> Result<Plan, Memory>
    requires orderly { IsOrderly image.now }
    requires index { IsIndexOf image.now index.now }
    ensures { IfOk result (λ plan. IsPlan image.now (code_command (code.InlineTemporary method variable)) plan.changes plan.touched.items) }
{
    let Some(tree) = users_method(image, method, steps) else {
        return Ok(no_changes(alloc));
    };
    let names = image.names();
    let Some(assignment) = let_of(alloc, names, tree, variable)? else {
        return Ok(no_changes(alloc));
    };
    let after = temporary_inlined(alloc, names, tree, variable, &assignment)?;
    plan_retold(alloc, image, index, &method, &after, steps)
}
