// Methods of the image, and messages in them with the methods that they find.
ghost use Rattle.std.specs.Prelude.{◌≡◌, ℕ, Some, option_map};
ghost use Rattle.std.specs.Option.{ForSome};
ghost use Rattle.class_table.specs.Slots.{Slots};
ghost use Rattle.class_table.specs.Valid.{IsLive, IsOrderly};
ghost use Rattle.class_table.specs.View.{class_name, number_image};
ghost use Rattle.command_model.specs.CodeEffects.{target_of};
ghost use Rattle.command_model.specs.InlineConditions as model;
ghost use Rattle.commands.specs.Views.{asked_by};
ghost use Rattle.inlined_code.specs.Sending.{send_of};
ghost use Rattle.inline_questions.specs.Codes.{code_alone, entry_in, opened_at};

use class_table::{Image, MethodSlot};
use inlined_code::Sent;
use part_questions::MethodCode;
use rb_base::{NameId, Steps};
use st_tree::NodeKind;
use std::sync::ledger::Ledger;

/// A method of an image that is found, and whether it is one of the kernel.
#[derive(Clone, Copy)]
pub struct Target<'a> {
    pub code: MethodCode<'a>,
    pub kernel: bool,
}

/// A message in a method, and the method that it finds, whose body is to stand in its place.
#[derive(Clone, Copy)]
pub struct Call<'a> {
    pub method: MethodCode<'a>,
    pub sent: Sent<'a>,
    pub target: Target<'a>,
}

/// Whether the message is sent to `self`, the number of which name is given.
pub fn is_self_send(sent: &Sent<'_>, self_name: NameId) -> bool
    ensures { (s : Slots) → self_name ≡ (asked_by s.names).self_name → result ≡ model.is_self_send (asked_by s.names) (number_image s) (send_of sent.now) }
{
    let receiver = sent.receiver;
    match &receiver.kind {
        NodeKind::Var { name } => self_name == *name,
        _ => false,
    }
}

/// The method in a slot, if the slot is live. Counts one step.
pub fn opened<'a, L: Ledger>(
    image: &'a Image,
    slot: MethodSlot,
    steps: &mut Steps<L>,
) -> Option<Target<'a>>
    requires { IsOrderly image.now }
    ensures live { ForSome result (λ found. IsLive image.now.class_order found.code.class) }
    ensures method { option_map (entry_in image.now) result ≡ opened_at image.now slot }
{
    let Some(info) = image.method_info(slot) else {
        return None;
    };
    let tree = image.open_body(slot, steps)?;
    let code = MethodCode {
        class: info.class,
        meta: info.meta,
        tree,
    };
    Some(Target {
        code,
        kernel: info.kernel,
    })
}

/// The method that the class of a method finds on its side for a message in it; `None` where it finds none. Counts at most one
/// step.
pub fn target_of<'a, L: Ledger>(
    image: &'a Image,
    method: &MethodCode<'_>,
    sent: &Sent<'_>,
    steps: &mut Steps<L>,
) -> Option<Target<'a>>
    requires orderly { IsOrderly image.now }
    requires live { IsLive image.now.class_order method.now.class }
    ensures live { ForSome result (λ target. IsLive image.now.class_order target.code.class) }
    ensures target { (c : ℕ) → class_name image.now.classes method.now.class ≡ Some c →
        option_map (entry_in image.now) result ≡ option_map code_alone (target_of (asked_by image.now.names) (number_image image.now) c method.now.meta (send_of sent.now)) }
{
    let slot = image.lookup(method.class, method.meta, sent.selector)?;
    opened(image, slot, steps)
}
