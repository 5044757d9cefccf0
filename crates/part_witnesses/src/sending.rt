// Messages in methods with the methods that they find.
ghost use Rattle.std.specs.Prelude.{◌≡◌, ℕ, ◌++◌, [], option_map, OnOk, Some};
ghost use Rattle.std.specs.Option.{ForSome, option_map_or};
ghost use Rattle.class_table.specs.Valid.{IsOrderly};
ghost use Rattle.class_table.specs.View.{class_name, number_image};
ghost use Rattle.command_model.specs.CodeEffects.{send_at, target_of};
ghost use Rattle.command_model.specs.Places.{sent_by};
ghost use Rattle.commands.specs.Views.{asked_by};
ghost use Rattle.inlined_code.specs.Sending.{send_of};
ghost use Rattle.st_tree.specs.View.{method_of};
ghost use Rattle.part_questions.specs.Parts.{part_of};
ghost use Rattle.refusal_witnesses.specs.InlineWitnesses.{new_control, other_receiver};
ghost use Rattle.refusal_witnesses.specs.Refused.{of_target};
ghost use Rattle.witness_lists.specs.Views.{shown};
ghost use Rattle.part_witnesses.specs.Held.{IsHeld, held_as};
ghost use Rattle.part_witnesses.specs.Sending.{IsSending};
ghost use Rattle.part_witnesses.specs.Standing.{sent_standing, target_standing};

use crate::actuals::other_actuals;
use crate::captured::captured;
use crate::held::{Held, code_of, slot_method};
use crate::inlinable::not_inlinable;
use crate::parts::{FoundPart, found_part};
use crate::push::{push_above_if, push_child_if};
use class_table::Image;
use code_conditions::self_name;
use commands::{Condition, MethodPart};
use inline_questions::{Call, Target, is_self_send, makes_no_control};
use inlined_code::{Sent, sent_by};
use rb_base::{Memory, NameId, Steps};
use st_tree::Part;
use std::alloc::Global;
use std::sync::ledger::Ledger;
use witness_lists::{Owner, Witness};

/// A message in a method, and the method that it finds.
#[derive(Clone, Copy)]
pub(crate) struct Sending<'a> {
    pub method: &'a Held<'a>,
    pub target: &'a Held<'a>,
    /// The message as the questions on it take it.
    pub call: Call<'a>,
}

/// The message that the part is, if it is one.
fn sent_of<'a>(found: &'a FoundPart<'_>) -> Option<Sent<'a>>
    ensures { option_map send_of result ≡ sent_by (method_of found.now.method.tree.now) (part_of found.now.part) }
{
    match &found.part {
        Part::Expression { path } => sent_by(found.method.tree, path),
        Part::Run { .. } => None,
    }
}

/// The method that the class of a method finds on its side for a message in it, if it finds one. Counts at most one step.
fn target_of<'a, L: Ledger>(
    image: &'a Image,
    method: &Held<'_>,
    sent: &Sent<'_>,
    steps: &mut Steps<L>,
) -> Option<Held<'a>>
    requires orderly { IsOrderly image.now }
    requires held { IsHeld image.now method.now }
    ensures held { ForSome result (IsHeld image.now) }
    ensures target { (c : ℕ) → class_name image.now.classes method.now.info.class ≡ Some c →
        option_map (held_as image.now.classes) result ≡ target_of (asked_by image.now.names) (number_image image.now) c method.now.info.meta (send_of sent.now) }
{
    match image.lookup(method.info.class, method.info.meta, sent.selector) {
        None => None,
        Some(slot) => slot_method(image, slot, steps),
    }
}

/// Appends the receiver of the message that a part of a user's method is, if that is not `self`; nothing, if there is no such
/// message. Counts at most one step. Want of memory, if there is not enough of it to look.
pub fn receiver_witness<L: Ledger>(
    alloc: Global,
    image: &Image,
    part: &MethodPart,
    found: &mut Vec<Witness>,
    steps: &mut Steps<L>,
) -> Result<(), Memory>
    requires { IsOrderly image.now }
    ensures { OnOk result (shown image.now found.new.items ≡ shown image.now found.old.items ++ option_map_or (λ e. other_receiver (asked_by image.now.names) (number_image image.now) e.0 e.1) (send_at (asked_by image.now.names) (number_image image.now) part.now.method.class part.now.method.meta part.now.method.selector part.now.from part.now.to) []) }
{
    let Some(there) = found_part(alloc, image, part, steps)? else {
        return Ok(());
    };
    let Some(sent) = sent_of(&there) else {
        return Ok(());
    };
    let is_self = is_self_send(&sent, self_name(image.names()));
    let owner = Owner::Method(there.method.slot);
    push_child_if(alloc, !is_self, &owner, sent.path, 0, found)
}

/// Appends the node above the message, if that becomes a control send.
fn new_control(
    alloc: Global,
    image: &Image,
    sending: &Sending<'_>,
    found: &mut Vec<Witness>,
) -> Result<(), Memory>
    requires { IsSending image.now sending.now }
    ensures { OnOk result (shown image.now found.new.items ≡ shown image.now found.old.items ++ new_control (asked_by image.now.names) (number_image image.now) (held_as image.now.classes sending.now.method.now) (send_of sending.now.call.sent) (held_as image.now.classes sending.now.target.now)) }
{
    let is_none = makes_no_control(alloc, image, &sending.call)?;
    let owner = Owner::Method(sending.method.slot);
    push_above_if(alloc, !is_none, &owner, sending.call.sent.path, found)
}

/// Appends what is in the way of the condition of the message and of the method that it finds; nothing, if it is no condition
/// of them.
fn standing(
    alloc: Global,
    image: &Image,
    class: NameId,
    condition: &Condition,
    sending: &Sending<'_>,
    found: &mut Vec<Witness>,
) -> Result<(), Memory>
    requires orderly { IsOrderly image.now }
    requires sending { IsSending image.now sending.now }
    ensures { OnOk result (shown image.now found.new.items ≡ shown image.now found.old.items ++ target_standing image.now class condition.now (held_as image.now.classes sending.now.method.now) (send_of sending.now.call.sent) (held_as image.now.classes sending.now.target.now)) }
{
    match condition {
        Condition::Inlinable(_) => not_inlinable(alloc, image, class, sending, found),
        Condition::PlainActuals(_) => other_actuals(alloc, image, sending, found),
        Condition::NoCapture { .. } => captured(alloc, image, sending, found),
        Condition::NoNewControl { .. } => new_control(alloc, image, sending, found),
        _ => Ok(()),
    }
}

/// The same of the message that the part is, and of the method that it finds for the class of the name; nothing, if the part is
/// no message, or if it finds no method. Counts at most one step.
fn sent_witnesses<L: Ledger>(
    alloc: Global,
    image: &Image,
    class: NameId,
    condition: &Condition,
    there: &FoundPart<'_>,
    found: &mut Vec<Witness>,
    steps: &mut Steps<L>,
) -> Result<(), Memory>
    requires orderly { IsOrderly image.now }
    requires held { IsHeld image.now there.now.method }
    requires class { class_name image.now.classes there.now.method.info.class ≡ Some class }
    ensures { OnOk result (shown image.now found.new.items ≡ shown image.now found.old.items ++ sent_standing image.now class there.now.method.info.meta condition.now (held_as image.now.classes there.now.method) (part_of there.now.part)) }
{
    let Some(sent) = sent_of(there) else {
        return Ok(());
    };
    let method = &there.method;
    let Some(target) = target_of(image, method, &sent, steps) else {
        return Ok(());
    };
    let call = Call {
        method: code_of(method),
        sent,
        target: Target {
            code: code_of(&target),
            kernel: target.info.kernel,
        },
    };
    let sending = Sending {
        method,
        target: &target,
        call,
    };
    standing(alloc, image, class, condition, &sending, found)
}

/// Appends what is in the way of the condition of the message that a part of a user's method is, and of the method that it
/// finds; nothing, if there is no such message, if it finds no method, or if it is no condition of them. Counts at most two
/// steps. Want of memory, if there is not enough of it to look.
pub fn target_witnesses<L: Ledger>(
    alloc: Global,
    image: &Image,
    condition: &Condition,
    part: &MethodPart,
    found: &mut Vec<Witness>,
    steps: &mut Steps<L>,
) -> Result<(), Memory>
    requires { IsOrderly image.now }
    ensures { OnOk result (shown image.now found.new.items ≡ shown image.now found.old.items ++ of_target (asked_by image.now.names) (number_image image.now) part.now.method.class part.now.method.meta part.now.method.selector part.now.from part.now.to (target_standing image.now part.now.method.class condition.now)) }
{
    match found_part(alloc, image, part, steps)? {
        None => Ok(()),
        Some(there) => {
            let class = part.method.class;
            sent_witnesses(alloc, image, class, condition, &there, found, steps)
        }
    }
}
