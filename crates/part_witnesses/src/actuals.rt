// What a message passes that may not be evaluated elsewhere.
ghost use Rattle.std.specs.Prelude.{◌≡◌, ◌++◌, OnOk};
ghost use Rattle.class_table.specs.Valid.{IsOrderly};
ghost use Rattle.class_table.specs.View.{number_image};
ghost use Rattle.commands.specs.Views.{asked_by};
ghost use Rattle.inlined_code.specs.Sending.{send_of};
ghost use Rattle.refusal_witnesses.specs.InlineWitnesses as model;
ghost use Rattle.witness_lists.specs.Views.{shown};
ghost use Rattle.part_witnesses.specs.Held.{held_as};
ghost use Rattle.part_witnesses.specs.Sending.{IsSending};

use crate::push::push_child_if;
use crate::sending::Sending;
use class_table::Image;
use code_conditions::self_name;
use inline_questions::is_actual_plain;
use rb_base::{Memory, NameId};
use std::alloc::Global;
use witness_lists::{Owner, Witness, push_node_if};

/// Appends what is passed for the argument of a number, from 0, if it may not be evaluated elsewhere; the message itself, if it
/// passes fewer.
fn other_actual(
    alloc: Global,
    image: &Image,
    sending: &Sending<'_>,
    number: usize,
    formal: NameId,
    found: &mut Vec<Witness>,
) -> Result<(), Memory>
    requires orderly { IsOrderly image.now }
    requires sending { IsSending image.now sending.now }
    ensures { OnOk result (shown image.now found.new.items ≡ shown image.now found.old.items ++ model.other_actual (asked_by image.now.names) (number_image image.now) (held_as image.now.classes sending.now.method.now) (send_of sending.now.call.sent) (held_as image.now.classes sending.now.target.now) (number, formal)) }
{
    let owner = Owner::Method(sending.method.slot);
    let path = sending.call.sent.path;
    let Some(node) = sending.call.sent.arguments.as_slice().get(number) else {
        return push_node_if(alloc, true, &owner, path, found);
    };
    let self_name = self_name(image.names());
    let plain = is_actual_plain(alloc, image, &sending.call, self_name, formal, node)?;
    push_child_if(alloc, !plain, &owner, path, number + 1, found)
}

/// Appends all that is passed so.
pub(crate) fn other_actuals(
    alloc: Global,
    image: &Image,
    sending: &Sending<'_>,
    found: &mut Vec<Witness>,
) -> Result<(), Memory>
    requires orderly { IsOrderly image.now }
    requires sending { IsSending image.now sending.now }
    ensures { OnOk result (shown image.now found.new.items ≡ shown image.now found.old.items ++ model.other_actuals (asked_by image.now.names) (number_image image.now) (held_as image.now.classes sending.now.method.now) (send_of sending.now.call.sent) (held_as image.now.classes sending.now.target.now)) }
{
    let formals = sending.target.tree.arguments.as_slice();
    for (number, formal) in formals.iter().enumerate() {
        other_actual(alloc, image, sending, number, *formal, found)?;
    }
    Ok(())
}
