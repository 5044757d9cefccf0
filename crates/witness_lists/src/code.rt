// Walks over the methods and the do-its of an image.
ghost use Rattle.std.specs.Prelude.{◌≡◌, ◌++◌, OnOk};
ghost use Rattle.std.specs.List.{enumerate_from, flat_map};
ghost use Rattle.st_tree.specs.View.{method_of, sequence_of};
ghost use Rattle.class_table.specs.View.{doit_of, number_image};
ghost use Rattle.refusal_witnesses.specs.Witnesses.{in_doits, nodes_that};
ghost use Rattle.witness_lists.specs.Sought.{passes};
ghost use Rattle.witness_lists.specs.Views.{owner_of, shown};
ghost use Rattle.witness_lists.specs.Walks.{code_found, is_looked_in, standing_in, slot_found, method_found, doit_found, doit_standing};

use crate::nodes::{Sought, heads_doit, heads_method, passes};
use crate::witness::{Owner, Witness, push_if, push_node_if};
use class_table::{Image, MethodSlot};
use placed_nodes::placed_nodes;
use rb_base::{Memory, Steps};
use st_tree::{Method, Sequence};
use std::alloc::Global;
use std::sync::ledger::Ledger;

/// In whose methods something is sought.
#[derive(Clone, Copy, Debug)]
pub enum Whose {
    Everyone,
    Users,
    Kernel,
}

/// Whether something is sought in a method, from whether it is one of the kernel.
fn is_looked_in(whose: Whose, kernel: bool) -> bool
    ensures { result ≡ is_looked_in whose kernel }
{
    match whose {
        Whose::Everyone => true,
        Whose::Users => !kernel,
        Whose::Kernel => kernel,
    }
}

/// Appends the nodes of a body that are sought, as nodes of the owner.
pub fn nodes_that(
    alloc: Global,
    image: &Image,
    sought: &Sought,
    owner: &Owner,
    body: &Sequence,
    found: &mut Vec<Witness>,
) -> Result<(), Memory>
    ensures { OnOk result (shown image.now found.new.items ≡ shown image.now found.old.items ++ nodes_that (λ e. passes image.now.names sought.now e.1) (owner_of image.now owner.now) (sequence_of body.now)) }
{
    let nodes = placed_nodes(alloc, body)?;
    for placed in nodes.as_slice() {
        let is_sought = passes(image.names(), sought, placed.node);
        push_node_if(alloc, is_sought, owner, &placed.path, found)?;
    }
    Ok(())
}

/// Appends the method of the owner, if it is sought as a whole, and the nodes in it that are sought.
fn in_tree(
    alloc: Global,
    image: &Image,
    sought: &Sought,
    owner: &Owner,
    tree: &Method,
    found: &mut Vec<Witness>,
) -> Result<(), Memory>
    ensures { OnOk result (shown image.now found.new.items ≡ shown image.now found.old.items ++ standing_in image.now.names sought.now (owner_of image.now owner.now) (method_of tree.now)) }
{
    let is_whole = heads_method(image.names(), sought, tree);
    push_if(is_whole, Witness::Whole(*owner), found)?;
    nodes_that(alloc, image, sought, owner, &tree.body, found)
}

/// The same of the do-it of the owner.
fn in_body(
    alloc: Global,
    image: &Image,
    sought: &Sought,
    owner: &Owner,
    body: &Sequence,
    found: &mut Vec<Witness>,
) -> Result<(), Memory>
    ensures { OnOk result (shown image.now found.new.items ≡ shown image.now found.old.items ++ doit_standing image.now.names sought.now (owner_of image.now owner.now) (sequence_of body.now)) }
{
    let is_whole = heads_doit(sought, body);
    push_if(is_whole, Witness::Whole(*owner), found)?;
    nodes_that(alloc, image, sought, owner, body, found)
}

/// Appends what is sought in the method of a slot, if the slot is live and the method is one of those.
pub fn slot_witnesses<L: Ledger>(
    alloc: Global,
    image: &Image,
    whose: Whose,
    sought: &Sought,
    slot: MethodSlot,
    found: &mut Vec<Witness>,
    steps: &mut Steps<L>,
) -> Result<(), Memory>
    ensures { OnOk result (shown image.now found.new.items ≡ shown image.now found.old.items ++ slot_found image.now whose sought.now slot) }
{
    let Some(info) = image.method_info(slot) else {
        return Ok(());
    };
    if !is_looked_in(whose, info.kernel) {
        return Ok(());
    }
    match image.open_body(slot, steps) {
        None => Ok(()),
        Some(tree) => in_tree(alloc, image, sought, &Owner::Method(slot), tree, found),
    }
}

/// Appends what is sought in the methods, in their order.
pub fn sought_in_methods<L: Ledger>(
    alloc: Global,
    image: &Image,
    whose: Whose,
    sought: &Sought,
    found: &mut Vec<Witness>,
    steps: &mut Steps<L>,
) -> Result<(), Memory>
    ensures { OnOk result (shown image.now found.new.items ≡ shown image.now found.old.items ++ flat_map (method_found image.now.names whose sought.now) (number_image image.now).methods) }
{
    for slot in image.methods() {
        slot_witnesses(alloc, image, whose, sought, *slot, found, steps)?;
    }
    Ok(())
}

/// Appends what is sought in the do-it of a number, if there are so many.
fn number_witnesses<L: Ledger>(
    alloc: Global,
    image: &Image,
    sought: &Sought,
    number: usize,
    found: &mut Vec<Witness>,
    steps: &mut Steps<L>,
) -> Result<(), Memory>
    ensures { OnOk result (shown image.now found.new.items ≡ shown image.now found.old.items ++ doit_found image.now sought.now number) }
{
    match image.open_doit(number, steps) {
        None => Ok(()),
        Some(body) => in_body(alloc, image, sought, &Owner::DoIt(number), body, found),
    }
}

/// Appends what is sought in the do-its, in their order.
pub fn sought_in_doits<L: Ledger>(
    alloc: Global,
    image: &Image,
    sought: &Sought,
    found: &mut Vec<Witness>,
    steps: &mut Steps<L>,
) -> Result<(), Memory>
    ensures { OnOk result (shown image.now found.new.items ≡ shown image.now found.old.items ++ in_doits (doit_standing image.now.names sought.now) (number_image image.now)) }
{
    let mut number = 0;
    while number < image.doits() {
        number_witnesses(alloc, image, sought, number, found, steps)?;
        number += 1;
    }
    Ok(())
}

/// Appends what is sought in the methods, and then in the do-its.
pub fn sought_in_code<L: Ledger>(
    alloc: Global,
    image: &Image,
    whose: Whose,
    sought: &Sought,
    found: &mut Vec<Witness>,
    steps: &mut Steps<L>,
) -> Result<(), Memory>
    ensures { OnOk result (shown image.now found.new.items ≡ shown image.now found.old.items ++ code_found image.now whose sought.now) }
{
    sought_in_methods(alloc, image, whose, sought, found, steps)?;
    sought_in_doits(alloc, image, sought, found, steps)
}
