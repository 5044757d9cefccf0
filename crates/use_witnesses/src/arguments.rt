// The witnesses of the condition that no method reads an argument.
ghost use Rattle.std.specs.Prelude.{◌≡◌, ◌++◌, map, OnOk};
ghost use Rattle.class_table.specs.View.{number_image};
ghost use Rattle.command_model.specs.ParameterConditions.{formal_reads};
ghost use Rattle.commands.specs.Views.{asked_by};
ghost use Rattle.refusal_witnesses.specs.ParameterWitnesses.{argument_reads};
ghost use Rattle.refusal_witnesses.specs.Witnesses.{a_node};
ghost use Rattle.st_tree.specs.View.{method_of};
ghost use Rattle.witness_lists.specs.Views.{owner_of, shown};
ghost use Rattle.use_witnesses.specs.Arguments.{slot_reads};

use crate::uses::push_node_if;
use class_table::{Image, MethodSlot};
use parameter_questions::{Sought, found_in, is_formal};
use rb_base::{Memory, NameId, Steps};
use st_scope::local_at;
use st_tree::Method;
use std::alloc::Global;
use std::sync::ledger::Ledger;
use witness_lists::{Owner, Witness, push_if};

/// Appends the nodes that read the name as an argument of the method itself.
fn reads_in(
    alloc: Global,
    image: &Image,
    owner: &Owner,
    tree: &Method,
    name: NameId,
    found: &mut Vec<Witness>,
) -> Result<(), Memory>
    ensures { OnOk result (shown image.now found.new.items ≡ shown image.now found.old.items ++ map (a_node (owner_of image.now owner.now)) (formal_reads (asked_by image.now.names) (method_of tree.now) name)) }
{
    let reads = found_in(alloc, &Sought::Read(name), &tree.body)?;
    for placed in reads.as_slice() {
        let is_read = is_formal(local_at(tree, &placed.path, name, image.names()));
        push_node_if(alloc, is_read, owner, &placed.path, found)?;
    }
    Ok(())
}

/// Appends the nodes that read the argument in the method of a slot, if it is a live one of the user for the selector, or the
/// method, if it has fewer.
fn slot_reads<L: Ledger>(
    alloc: Global,
    image: &Image,
    selector: NameId,
    argument: usize,
    slot: MethodSlot,
    found: &mut Vec<Witness>,
    steps: &mut Steps<L>,
) -> Result<(), Memory>
    ensures { OnOk result (shown image.now found.new.items ≡ shown image.now found.old.items ++ slot_reads image.now selector argument slot) }
{
    let Some(info) = image.method_info(slot) else {
        return Ok(());
    };
    if info.kernel {
        return Ok(());
    }
    if selector != info.selector {
        return Ok(());
    }
    let Some(tree) = image.open_body(slot, steps) else {
        return Ok(());
    };
    let owner = Owner::Method(slot);
    match tree.arguments.as_slice().get(argument.saturating_sub(1)) {
        None => push_if(true, Witness::Whole(owner), found),
        Some(name) => reads_in(alloc, image, &owner, tree, *name, found),
    }
}

/// Appends the nodes that read the argument, counted from 1, in the methods of the selector that are the user's, and those of
/// these methods that have fewer arguments.
pub fn argument_reads<L: Ledger>(
    alloc: Global,
    image: &Image,
    selector: NameId,
    argument: usize,
    found: &mut Vec<Witness>,
    steps: &mut Steps<L>,
) -> Result<(), Memory>
    ensures { OnOk result (shown image.now found.new.items ≡ shown image.now found.old.items ++ argument_reads (asked_by image.now.names) (number_image image.now) selector argument) }
{
    for slot in image.methods() {
        slot_reads(alloc, image, selector, argument, *slot, found, steps)?;
    }
    Ok(())
}
