// Names of the method that a message finds that mean another thing where the message stands.
ghost use Rattle.std.specs.Prelude.{◌≡◌, ◌++◌, OnOk};
ghost use Rattle.std.specs.List.{flat_map};
ghost use Rattle.class_table.specs.Valid.{IsOrderly};
ghost use Rattle.class_table.specs.View.{number_image};
ghost use Rattle.commands.specs.Views.{asked_by};
ghost use Rattle.inlined_code.specs.Sending.{send_of};
ghost use Rattle.refusal_witnesses.specs.InlineWitnesses as model;
ghost use Rattle.witness_lists.specs.Views.{shown};
ghost use Rattle.part_witnesses.specs.Held.{held_as};
ghost use Rattle.part_witnesses.specs.Sending.{IsSending, captured_free, other_name};

use crate::held::{meaning_in, means_same};
use crate::push::{Named, push_meanings_if};
use crate::sending::Sending;
use class_table::Image;
use inline_questions::{free_names_of, is_of_block};
use inlined_code::passed_for;
use method_witnesses::name_used;
use placed_nodes::{PlacedNode, placed_nodes};
use rb_base::{Memory, NameId};
use st_scope::local_at;
use st_tree::Path;
use std::alloc::Global;
use witness_lists::{Owner, Witness};

/// Appends those of the names, which are named by what is passed for an argument, that a block round a place of the target
/// declares.
fn captured_free(
    alloc: Global,
    image: &Image,
    sending: &Sending<'_>,
    path: &Path,
    names: &[NameId],
    found: &mut Vec<Witness>,
) -> Result<(), Memory>
    requires orderly { IsOrderly image.now }
    requires sending { IsSending image.now sending.now }
    ensures { OnOk result (shown image.now found.new.items ≡ shown image.now found.old.items ++ flat_map (captured_free image.now sending.now path.now) names.now) }
{
    let target = sending.target;
    for name in names {
        let here = meaning_in(image, sending.method, sending.call.sent.path, *name);
        let there = meaning_in(image, target, path, *name);
        let local = local_at(target.tree, path, *name, image.names());
        let named = Named {
            owner: Owner::Method(target.slot),
            path,
            name: *name,
            one: here,
            other: there,
        };
        push_meanings_if(alloc, is_of_block(local), &named, found)?;
    }
    Ok(())
}

/// Appends the name at a place of the target, if no block round it declares it and it means another thing where the message
/// stands.
fn other_name(
    alloc: Global,
    image: &Image,
    sending: &Sending<'_>,
    path: &Path,
    name: NameId,
    found: &mut Vec<Witness>,
) -> Result<(), Memory>
    requires orderly { IsOrderly image.now }
    requires sending { IsSending image.now sending.now }
    ensures { OnOk result (shown image.now found.new.items ≡ shown image.now found.old.items ++ other_name image.now sending.now path.now name) }
{
    let target = sending.target;
    let local = local_at(target.tree, path, name, image.names());
    if is_of_block(local) {
        return Ok(());
    }
    let same = means_same(
        image,
        target,
        path,
        sending.method,
        sending.call.sent.path,
        name,
    );
    let there = meaning_in(image, target, path, name);
    let here = meaning_in(image, sending.method, sending.call.sent.path, name);
    let named = Named {
        owner: Owner::Method(target.slot),
        path,
        name,
        one: there,
        other: here,
    };
    push_meanings_if(alloc, !same, &named, found)
}

/// The same; for an argument the names in what is passed that a block round the place declares.
fn captured_name(
    alloc: Global,
    image: &Image,
    sending: &Sending<'_>,
    path: &Path,
    name: NameId,
    found: &mut Vec<Witness>,
) -> Result<(), Memory>
    requires orderly { IsOrderly image.now }
    requires sending { IsSending image.now sending.now }
    ensures { OnOk result (shown image.now found.new.items ≡ shown image.now found.old.items ++ model.captured_name (asked_by image.now.names) (number_image image.now) (held_as image.now.classes sending.now.method.now) (send_of sending.now.call.sent) (held_as image.now.classes sending.now.target.now) path.now name) }
{
    let names = image.names();
    let arguments = sending.call.sent.arguments;
    match passed_for(names, sending.target.tree, arguments, path, name) {
        Some(node) => {
            let free = free_names_of(alloc, names, node)?;
            captured_free(alloc, image, sending, path, free.as_slice(), found)
        }
        None => other_name(alloc, image, sending, path, name, found),
    }
}

/// The same of the name that a node of the target reads or assigns, if it does.
fn captured_at(
    alloc: Global,
    image: &Image,
    sending: &Sending<'_>,
    placed: &PlacedNode<'_>,
    found: &mut Vec<Witness>,
) -> Result<(), Memory>
    requires orderly { IsOrderly image.now }
    requires sending { IsSending image.now sending.now }
    ensures { OnOk result (shown image.now found.new.items ≡ shown image.now found.old.items ++ model.captured_at (asked_by image.now.names) (number_image image.now) (held_as image.now.classes sending.now.method.now) (send_of sending.now.call.sent) (held_as image.now.classes sending.now.target.now) (placed.now.path, placed.now.node.now)) }
{
    match name_used(placed.node) {
        None => Ok(()),
        Some(name) => captured_name(alloc, image, sending, &placed.path, name, found),
    }
}

/// Appends all names of the target that mean another thing where the message stands.
pub(crate) fn captured(
    alloc: Global,
    image: &Image,
    sending: &Sending<'_>,
    found: &mut Vec<Witness>,
) -> Result<(), Memory>
    requires orderly { IsOrderly image.now }
    requires sending { IsSending image.now sending.now }
    ensures { OnOk result (shown image.now found.new.items ≡ shown image.now found.old.items ++ model.captured (asked_by image.now.names) (number_image image.now) (held_as image.now.classes sending.now.method.now) (send_of sending.now.call.sent) (held_as image.now.classes sending.now.target.now)) }
{
    let nodes = placed_nodes(alloc, &sending.target.tree.body)?;
    for placed in nodes.as_slice() {
        captured_at(alloc, image, sending, placed, found)?;
    }
    Ok(())
}
