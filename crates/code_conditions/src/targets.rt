// Which conditions of a message hold that becomes the body of the method that it finds.
ghost use Rattle.std.specs.Prelude.{◌≡◌, true, false, nat_eq, IfOk};
ghost use Rattle.std.specs.Option.{option_map_or, ForSome};
ghost use Rattle.class_table.specs.Valid.{IsOrderly};
ghost use Rattle.class_table.specs.View.{number_image};
ghost use Rattle.command_model.specs.CodeEffects.{send_at, target_of};
ghost use Rattle.command_model.specs.Hierarchy.{is_class};
ghost use Rattle.command_model.specs.InlineConditions as model;
ghost use Rattle.commands.specs.Views.{asked_by};
ghost use Rattle.part_lookup.specs.Kept.{IsKept};
ghost use Rattle.part_questions.specs.Codes.{entry_of};
ghost use Rattle.inlined_code.specs.Sending.{send_of};
ghost use Rattle.inline_questions.specs.Codes.{entry_in, IsCall};
ghost use Rattle.code_conditions.specs.Passes.{target_passes};

use crate::sent::{code_of, sent_of};
use crate::words::self_name;
use class_table::Image;
use commands::{Condition, MethodName, MethodPart};
use inline_questions::{
    Call, are_actuals_plain, captures_nothing, is_inlinable, makes_no_control, target_of,
};
use part_lookup::{KeptPart, kept_part};
use rb_base::{Memory, NameId, Steps};
use std::alloc::Global;
use std::sync::ledger::Ledger;

/// Whether the user has the method, and the part is a message to `self` in it. Want of memory, if there is not enough of it to
/// look.
pub fn is_self_send<L: Ledger>(
    alloc: Global,
    image: &Image,
    part: &MethodPart,
    kept: &Option<KeptPart>,
    steps: &mut Steps<L>,
) -> Result<bool, Memory>
    requires orderly { IsOrderly image.now }
    requires kept { ForSome kept.now (IsKept image.now) }
    ensures { IfOk result (λ is. is ≡ option_map_or (λ e. model.is_self_send (asked_by image.now.names) (number_image image.now) e.1) (send_at (asked_by image.now.names) (number_image image.now) part.now.method.class part.now.method.meta part.now.method.selector part.now.from part.now.to) false) }
{
    let Some(found) = kept_part(alloc, image, part, kept, steps)? else {
        return Ok(false);
    };
    let Some(sent) = sent_of(&found) else {
        return Ok(false);
    };
    let name = self_name(image.names());
    Ok(inline_questions::is_self_send(&sent, name))
}

/// Whether a message of the selector from the class, on a side of it, finds a method of the user, and no class below the class
/// has one of its own for the selector.
pub fn is_one_target(image: &Image, method: &MethodName) -> bool
    requires orderly { IsOrderly image.now }
    requires class { is_class nat_eq (number_image image.now) method.now.class ≡ true }
    ensures { result ≡ model.is_one_target (asked_by image.now.names) (number_image image.now) method.now.class method.now.meta method.now.selector }
{
    match image.class_named(method.class) {
        None => false,
        Some(class) => {
            inline_questions::is_one_target(image, class, method.meta, method.selector)
        }
    }
}

/// Whether the condition holds of the message and of the method that it finds; one that is no condition of them does not.
fn target_passes(
    alloc: Global,
    image: &Image,
    class: NameId,
    condition: &Condition,
    call: &Call<'_>,
) -> Result<bool, Memory>
    requires orderly { IsOrderly image.now }
    requires call { IsCall image.now call.now }
    ensures { IfOk result (λ is. is ≡ target_passes image.now class condition.now (entry_of image.now call.now.method) (send_of call.now.sent) (entry_in image.now call.now.target)) }
{
    match condition {
        Condition::Inlinable(_) => is_inlinable(alloc, image, class, call),
        Condition::PlainActuals(_) => {
            are_actuals_plain(alloc, image, call, self_name(image.names()))
        }
        Condition::NoCapture { .. } => captures_nothing(alloc, image, call),
        Condition::NoNewControl { .. } => makes_no_control(alloc, image, call),
        _ => Ok(false),
    }
}

/// Whether the user has the method, the part is a message in it that finds a method, and the condition holds of both; one that
/// is no condition of them does not. Want of memory, if there is not enough of it to look.
pub fn target_holds<L: Ledger>(
    alloc: Global,
    image: &Image,
    part: &MethodPart,
    condition: &Condition,
    kept: &Option<KeptPart>,
    steps: &mut Steps<L>,
) -> Result<bool, Memory>
    requires orderly { IsOrderly image.now }
    requires kept { ForSome kept.now (IsKept image.now) }
    ensures { IfOk result (λ is. is ≡ option_map_or (λ e. option_map_or (target_passes image.now part.now.method.class condition.now e.0 e.1) (target_of (asked_by image.now.names) (number_image image.now) part.now.method.class part.now.method.meta e.1) false) (send_at (asked_by image.now.names) (number_image image.now) part.now.method.class part.now.method.meta part.now.method.selector part.now.from part.now.to) false) }
{
    let Some(found) = kept_part(alloc, image, part, kept, steps)? else {
        return Ok(false);
    };
    let method = code_of(&found.method);
    let Some(sent) = sent_of(&found) else {
        return Ok(false);
    };
    let Some(target) = target_of(image, &method, &sent, steps) else {
        return Ok(false);
    };
    let call = Call {
        method,
        sent,
        target,
    };
    target_passes(alloc, image, part.method.class, condition, &call)
}
