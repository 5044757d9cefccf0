// The trees that methods get.
ghost use Rattle.std.specs.Prelude.{◌≡◌, ℕ, Some, option_map, IfOk};
ghost use Rattle.std.specs.Option.{ForSome};
ghost use Rattle.tree_model.specs.Normal.{normal};
ghost use Rattle.class_table.specs.Valid.{IsLive, IsOrderly};
ghost use Rattle.class_table.specs.View.{class_name};
ghost use Rattle.st_tree.specs.View.{method_of};
ghost use Rattle.part_lookup.specs.Kept.{IsKept};
ghost use Rattle.part_questions.specs.Parts.{part_of};
ghost use Rattle.code_conditions.specs.Trees.{inlined_at, with_temporary, with_body, with_value};

use class_table::Image;
use commands::{MethodName, MethodPart};
use inline_questions::target_of;
use inlined_code::{sent_by, tree_inlined};
use let_code::{let_of, temporary_extracted, temporary_inlined};
use part_lookup::{KeptPart, kept_part};
use part_questions::MethodCode;
use rb_base::{Memory, NameId, Steps};
use st_tree::{Method, Part};
use std::alloc::Global;
use std::sync::ledger::Ledger;
use temporary_code::normalized;
use users_methods::users_method;

/// The tree in which the part, an expression, is the temporary.
pub fn with_temporary<L: Ledger>(
    alloc: Global,
    image: &Image,
    part: &MethodPart,
    variable: NameId,
    kept: &Option<KeptPart>,
    steps: &mut Steps<L>,
) -> Result<Option<Method>, Memory>
    requires orderly { IsOrderly image.now }
    requires kept { ForSome kept.now (IsKept image.now) }
    ensures { IfOk result (λ tree. option_map method_of tree ≡ option_map normal (with_temporary image.now part.now variable)) }
{
    let Some(found) = kept_part(alloc, image, part, kept, steps)? else {
        return Ok(None);
    };
    match &found.part {
        Part::Run { .. } => Ok(None),
        Part::Expression { path } => temporary_extracted(alloc, found.method.tree, path, variable),
    }
}

/// The tree in which a part of a method, a message, is the body of the method that it finds from the class of the method on its
/// side.
fn inlined_at<L: Ledger>(
    alloc: Global,
    image: &Image,
    code: &MethodCode<'_>,
    part: &Part,
    steps: &mut Steps<L>,
) -> Result<Option<Method>, Memory>
    requires orderly { IsOrderly image.now }
    requires live { IsLive image.now.class_order code.now.class }
    ensures { (c : ℕ) → class_name image.now.classes code.now.class ≡ Some c →
        IfOk result (λ tree. option_map method_of tree ≡ option_map normal (inlined_at image.now c code.now.meta (method_of code.now.tree.now) (part_of part.now))) }
{
    let path = match part {
        Part::Expression { path } => path,
        Part::Run { .. } => return Ok(None),
    };
    let Some(sent) = sent_by(code.tree, path) else {
        return Ok(None);
    };
    let Some(target) = target_of(image, code, &sent, steps) else {
        return Ok(None);
    };
    let names = image.names();
    let Some(tree) = tree_inlined(alloc, names, code.tree, path, target.code.tree)? else {
        return Ok(None);
    };
    Ok(Some(normalized(alloc, tree)?))
}

/// The tree in which the part, a message, is the body of the method that it finds.
pub fn with_body<L: Ledger>(
    alloc: Global,
    image: &Image,
    part: &MethodPart,
    kept: &Option<KeptPart>,
    steps: &mut Steps<L>,
) -> Result<Option<Method>, Memory>
    requires orderly { IsOrderly image.now }
    requires kept { ForSome kept.now (IsKept image.now) }
    ensures { IfOk result (λ tree. option_map method_of tree ≡ option_map normal (with_body image.now part.now)) }
{
    let Some(found) = kept_part(alloc, image, part, kept, steps)? else {
        return Ok(None);
    };
    let code = MethodCode {
        class: found.method.class,
        meta: part.method.meta,
        tree: found.method.tree,
    };
    inlined_at(alloc, image, &code, &found.part, steps)
}

/// The tree in which the temporary is what is assigned to it.
pub fn with_value<L: Ledger>(
    alloc: Global,
    image: &Image,
    method: &MethodName,
    variable: NameId,
    steps: &mut Steps<L>,
) -> Result<Option<Method>, Memory>
    requires { IsOrderly image.now }
    ensures { IfOk result (λ tree. option_map method_of tree ≡ option_map normal (with_value image.now method.now variable)) }
{
    let Some(found) = users_method(image, *method, steps) else {
        return Ok(None);
    };
    let names = image.names();
    let Some(assignment) = let_of(alloc, names, found.tree, variable)? else {
        return Ok(None);
    };
    let tree = temporary_inlined(alloc, names, found.tree, variable, &assignment)?;
    Ok(Some(tree))
}
