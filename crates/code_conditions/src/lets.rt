// Which conditions of a temporary hold that becomes what is assigned to it.
ghost use Rattle.std.specs.Prelude.{◌≡◌, false, IfOk};
ghost use Rattle.std.specs.Option.{option_map_or};
ghost use Rattle.image_model.specs.Image.{EntryOf};
ghost use Rattle.class_table.specs.Valid.{IsLive, IsOrderly};
ghost use Rattle.class_table.specs.View.{number_image};
ghost use Rattle.command_model.specs.CodeEffects.{method_at};
ghost use Rattle.command_model.specs.Temporaries.{let_of};
ghost use Rattle.commands.specs.Views.{asked_by};
ghost use Rattle.let_code.specs.Lets.{let_as};
ghost use Rattle.part_questions.specs.Codes.{entry_of};
ghost use Rattle.code_conditions.specs.Passes.{let_passes};

use crate::words::self_name;
use class_table::Image;
use commands::{Condition, MethodName};
use let_code::let_of;
use let_questions::{LetCode, is_let_form, is_value_kept, is_value_no_control};
use part_questions::MethodCode;
use rb_base::{Memory, NameId, Steps};
use std::alloc::Global;
use std::sync::ledger::Ledger;
use users_methods::users_method;

/// Whether the condition holds of the assignment to the temporary; one that is no condition of it does not.
fn let_passes(
    alloc: Global,
    image: &Image,
    question: &LetCode<'_>,
    condition: &Condition,
) -> Result<bool, Memory>
    requires orderly { IsOrderly image.now }
    requires live { IsLive image.now.class_order question.now.code.class }
    ensures { IfOk result (λ is. is ≡ let_passes image.now question.now.variable condition.now (entry_of image.now question.now.code) (let_as question.now.assignment.now)) }
{
    match condition {
        Condition::LetForm { .. } => is_let_form(alloc, image, self_name(image.names()), question),
        Condition::NoCapture { .. } => is_value_kept(alloc, image, question),
        Condition::NoNewControl { .. } => is_value_no_control(alloc, image, question),
        _ => Ok(false),
    }
}

/// Whether the user has the method, it assigns the temporary in one statement, and the condition holds of that; one that is no
/// condition of it does not. Want of memory, if there is not enough of it to look.
pub fn let_holds<L: Ledger>(
    alloc: Global,
    image: &Image,
    method: &MethodName,
    variable: NameId,
    condition: &Condition,
    steps: &mut Steps<L>,
) -> Result<bool, Memory>
    requires { IsOrderly image.now }
    ensures { IfOk result (λ is. is ≡ option_map_or (λ (m : EntryOf _). option_map_or (let_passes image.now variable condition.now m) (let_of (asked_by image.now.names) m.tree variable) false) (method_at (asked_by image.now.names) (number_image image.now) method.now.class method.now.meta method.now.selector) false) }
{
    let Some(found) = users_method(image, *method, steps) else {
        return Ok(false);
    };
    let Some(assignment) = let_of(alloc, image.names(), found.tree, variable)? else {
        return Ok(false);
    };
    let code = MethodCode {
        class: found.class,
        meta: found.meta,
        tree: found.tree,
    };
    let question = LetCode {
        code,
        variable,
        assignment: &assignment,
    };
    let_passes(alloc, image, &question, condition)
}
