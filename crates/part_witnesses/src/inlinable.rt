// Why the body of a method may not stand in place of a message.
ghost use Rattle.std.specs.Prelude.{◌≡◌, ◌||◌, ◌++◌, not, OnOk};
ghost use Rattle.scope_model.specs.Control.{is_empty};
ghost use Rattle.st_tree.specs.View.{method_of};
ghost use Rattle.class_table.specs.Valid.{IsOrderly};
ghost use Rattle.class_table.specs.View.{number_image};
ghost use Rattle.commands.specs.Views.{asked_by};
ghost use Rattle.inlined_code.specs.Sending.{send_of};
ghost use Rattle.refusal_witnesses.specs.InlineWitnesses as model;
ghost use Rattle.witness_lists.specs.Views.{shown};
ghost use Rattle.part_witnesses.specs.Held.{IsHeld, held_as};
ghost use Rattle.part_witnesses.specs.Sending.{IsSending, supers_elsewhere};

use crate::held::{Held, code_of};
use crate::sending::Sending;
use crate::sought::block_returns;
use class_table::Image;
use inline_questions::{is_fit, is_method_of};
use rb_base::{Memory, NameId};
use std::alloc::Global;
use witness_lists::{Owner, Witness, nodes_that, push_if, push_node_if};

/// Whether the method is one of the kernel or has temporaries.
fn is_kept(method: &Held<'_>) -> bool
    ensures { result ≡ (method.now.info.kernel || not (is_empty (method_of method.now.tree.now).body.temporaries)) }
{
    if method.info.kernel {
        return true;
    }
    !method.tree.body.temporaries.as_slice().is_empty()
}

/// Appends the nodes of the method that are `super`, if it is none of the class of the name.
fn supers_elsewhere(
    alloc: Global,
    image: &Image,
    class: NameId,
    method: &Held<'_>,
    found: &mut Vec<Witness>,
) -> Result<(), Memory>
    requires held { IsHeld image.now method.now }
    ensures { OnOk result (shown image.now found.new.items ≡ shown image.now found.old.items ++ supers_elsewhere image.now class (held_as image.now.classes method.now)) }
{
    if is_method_of(image, class, &code_of(method)) {
        return Ok(());
    }
    let owner = Owner::Method(method.slot);
    let sought = witness_lists::Sought::Super;
    nodes_that(alloc, image, &sought, &owner, &method.tree.body, found)
}

/// Appends the target, if it is one of the kernel or has temporaries; the returns in its blocks; its `super`, if it is of
/// another class; and the message, if the body does not fit in its place.
pub(crate) fn not_inlinable(
    alloc: Global,
    image: &Image,
    class: NameId,
    sending: &Sending<'_>,
    found: &mut Vec<Witness>,
) -> Result<(), Memory>
    requires orderly { IsOrderly image.now }
    requires sending { IsSending image.now sending.now }
    ensures { OnOk result (shown image.now found.new.items ≡ shown image.now found.old.items ++ model.not_inlinable (asked_by image.now.names) (number_image image.now) class (held_as image.now.classes sending.now.method.now) (send_of sending.now.call.sent) (held_as image.now.classes sending.now.target.now)) }
{
    let target = sending.target;
    let body = &target.tree.body;
    let owner = Owner::Method(target.slot);
    push_if(is_kept(target), Witness::Whole(owner), found)?;
    block_returns(alloc, image, &owner, body, found)?;
    supers_elsewhere(alloc, image, class, target, found)?;
    let path = sending.call.sent.path;
    let fits = is_fit(alloc, sending.method.tree, path, body.statements.as_slice())?;
    push_node_if(
        alloc,
        !fits,
        &Owner::Method(sending.method.slot),
        path,
        found,
    )
}
