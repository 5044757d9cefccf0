// The change by which a message becomes the body of the method that it finds.
ghost use Rattle.std.specs.Prelude.{◌≡◌, ℕ, Some, option_map, IfOk};
ghost use Rattle.std.specs.Option.{ForSome};
ghost use Rattle.tree_model.specs.Normal.{normal};
ghost use Rattle.st_tree.specs.View.{method_of};
ghost use Rattle.class_table.specs.Valid.{IsLive, IsOrderly};
ghost use Rattle.class_table.specs.View.{class_name};
ghost use Rattle.commands.specs.Views.{code_command};
ghost use Rattle.commands.specs.declared.command.CodeMove.TheVariants as code_move;
ghost use Rattle.part_lookup.specs.Kept.{IsKept};
ghost use Rattle.part_questions.specs.Parts.{part_of};
ghost use Rattle.plans.specs.Plan.{IsPlan};
ghost use Rattle.reference_index.specs.Mentioned.{IsIndexOf};
ghost use Rattle.code_plans.specs.Inlined.{inlined_at};

use class_table::Image;
use commands::MethodPart;
use inline_questions::target_of;
use inlined_code::{sent_by, tree_inlined};
use part_lookup::{KeptPart, kept_part};
use part_questions::MethodCode;
use plans::Plan;
use rb_base::{Memory, Steps};
use reference_index::Index;
use st_tree::{Method, Part};
use std::alloc::Global;
use std::sync::ledger::Ledger;
use temporary_code::normalized;
use temporary_plans::{no_changes, plan_retold};

/// The method in which the body of another one stands in place of a part: of the one that the part, a message, finds from the
/// class of the method on its side. Its comments are in normal form. `None` where the part is no message, it finds no method,
/// or that one's body has no place there.
fn with_body<L: Ledger>(
    alloc: Global,
    image: &Image,
    code: &MethodCode<'_>,
    part: &Part,
    steps: &mut Steps<L>,
) -> Result<Option<Method>, Memory>
    requires orderly { IsOrderly image.now }
    requires live { IsLive image.now.class_order code.now.class }
    ensures { (c : ℕ) → class_name image.now.classes code.now.class ≡ Some c →
        IfOk result (λ after. option_map method_of after ≡ option_map normal (inlined_at image.now c code.now.meta (method_of code.now.tree.now) (part_of part.now))) }
{
    let path = match part {
        Part::Expression { path } => path,
        Part::Run { .. } => return Ok(None),
    };
    let Some(sent) = sent_by(code.tree, path) else {
        return Ok(None);
    };
    let Some(target) = target_of(image, code, &sent, steps) else {
        return Ok(None);
    };
    let names = image.names();
    let Some(after) = tree_inlined(alloc, names, code.tree, path, target.code.tree)? else {
        return Ok(None);
    };
    Ok(Some(normalized(alloc, after)?))
}

/// The change by which a message, the part of a user's method, becomes the body of the method that its class finds for it.
/// Where the user has no such method, the part is no message, it finds no method, or that one's body has no place there, there
/// is no change. Reads no source if the part is kept. Want of memory, if there is not enough of it for the change.
pub fn plan_inlined_message<L: Ledger>(
    alloc: Global,
    image: &Image,
    index: &Index,
    part: &MethodPart,
    kept: &Option<KeptPart>,
    steps: &mut Steps<L>,
) -> Result<Plan, Memory>
    requires orderly { IsOrderly image.now }
    requires index { IsIndexOf image.now index.now }
    requires kept { ForSome kept.now (IsKept image.now) }
    ensures { IfOk result (λ plan. IsPlan image.now (code_command (code_move.InlineMethod part.now)) plan.changes plan.touched.items) }
{
    let Some(found) = kept_part(alloc, image, part, kept, steps)? else {
        return Ok(no_changes(alloc));
    };
    let code = MethodCode {
        class: found.method.class,
        meta: part.method.meta,
        tree: found.method.tree,
    };
    let Some(after) = with_body(alloc, image, &code, &found.part, steps)? else {
        return Ok(no_changes(alloc));
    };
    plan_retold(alloc, image, index, &part.method, &after, steps)
}
