// The witnesses of the conditions of parts.
ghost use Rattle.std.specs.Prelude.{◌≡◌, ◌++◌, Some, option_map, IfOk, OnOk};
ghost use Rattle.std.specs.Option.{ForSome};
ghost use Rattle.class_table.specs.Valid.{IsOrderly};
ghost use Rattle.class_table.specs.View.{number_image};
ghost use Rattle.command_model.specs.CodeEffects as model;
ghost use Rattle.commands.specs.Views.{asked_by};
ghost use Rattle.part_questions.specs.Faults.{is_at_fault};
ghost use Rattle.part_questions.specs.Parts.{part_of};
ghost use Rattle.refusal_witnesses.specs.Refused.{of_part};
ghost use Rattle.refusal_witnesses.specs.Witnesses.{nodes_that};
ghost use Rattle.st_tree.specs.View.{sequence_of};
ghost use Rattle.witness_lists.specs.Views.{owner_of, shown};
ghost use Rattle.part_witnesses.specs.Held.{IsHeld, held_as};
ghost use Rattle.part_witnesses.specs.Standing.{fault_standing, found_as, part_standing};

use crate::first::evaluated_before;
use crate::held::{Held, users_held};
use crate::push::push_part_if;
use class_table::Image;
use commands::{Condition, MethodPart};
use part_lookup::part_at;
use part_questions::{Asked, Fault, has_fault, is_part, is_value_unused};
use placed_nodes::placed_nodes;
use rb_base::{Memory, Span, Steps};
use st_tree::{Part, Sequence};
use std::alloc::Global;
use std::sync::ledger::Ledger;
use witness_lists::{Owner, Witness, push_node_if};

/// A method of the user, and a part of it with the places of the source between which it stands.
#[derive(Drop)]
pub(crate) struct FoundPart<'a> {
    pub method: Held<'a>,
    pub part: Part,
    pub span: Span,
}

/// The method of the user, if there is such a one, and the part of it that stands at these places, if there is one. Counts at
/// most one step. Want of memory, if there is not enough of it to read the source.
pub(crate) fn found_part<'a, L: Ledger>(
    alloc: Global,
    image: &'a Image,
    part: &MethodPart,
    steps: &mut Steps<L>,
) -> Result<Option<FoundPart<'a>>, Memory>
    requires { IsOrderly image.now }
    ensures part { IfOk result (λ found. option_map (found_as image.now.classes) found ≡ model.part_at (asked_by image.now.names) (number_image image.now) part.now.method.class part.now.method.meta part.now.method.selector part.now.from part.now.to) }
    ensures held { IfOk result (λ found. ForSome found (λ (f : FoundPart). IsHeld image.now f.method)) }
{
    let Some(method) = users_held(image, part.method, steps) else {
        return Ok(None);
    };
    let (from, to) = (part.from, part.to);
    let Some(part) = part_at(alloc, method.info.source, from, to)? else {
        return Ok(None);
    };
    Ok(Some(FoundPart {
        method,
        part,
        span: Span { from, to },
    }))
}

/// Appends the nodes of a body that are in the part and have the fault, as nodes of the owner.
fn nodes_at_fault(
    alloc: Global,
    image: &Image,
    asked: &Asked<'_>,
    fault: Fault,
    owner: &Owner,
    body: &Sequence,
    found: &mut Vec<Witness>,
) -> Result<(), Memory>
    ensures { OnOk result (shown image.now found.new.items ≡ shown image.now found.old.items ++ nodes_that (is_at_fault asked.now fault) (owner_of image.now owner.now) (sequence_of body.now)) }
{
    let nodes = placed_nodes(alloc, body)?;
    for placed in nodes.as_slice() {
        let is_at_fault = has_fault(alloc, asked, fault, placed)?;
        push_node_if(alloc, is_at_fault, owner, &placed.path, found)?;
    }
    Ok(())
}

/// Appends the nodes of the part that have the fault.
fn faulty_nodes(
    alloc: Global,
    image: &Image,
    part: &FoundPart<'_>,
    fault: Fault,
    found: &mut Vec<Witness>,
) -> Result<(), Memory>
    requires { IsHeld image.now part.now.method }
    ensures { OnOk result (shown image.now found.new.items ≡ shown image.now found.old.items ++ fault_standing image.now.names fault (held_as image.now.classes part.now.method) (part_of part.now.part)) }
{
    let asked = Asked {
        names: image.names(),
        method: part.method.tree,
        part: &part.part,
    };
    let owner = Owner::Method(part.method.slot);
    nodes_at_fault(
        alloc,
        image,
        &asked,
        fault,
        &owner,
        &part.method.tree.body,
        found,
    )
}

/// Appends what is in the way of the condition of the part that is found; nothing, if it is no condition of a part.
fn standing(
    alloc: Global,
    image: &Image,
    condition: &Condition,
    part: &FoundPart<'_>,
    found: &mut Vec<Witness>,
) -> Result<(), Memory>
    requires orderly { IsOrderly image.now }
    requires held { IsHeld image.now part.now.method }
    ensures { OnOk result (shown image.now found.new.items ≡ shown image.now found.old.items ++ part_standing image.now condition.now (held_as image.now.classes part.now.method) (part_of part.now.part)) }
{
    let tree = part.method.tree;
    let owner = Owner::Method(part.method.slot);
    match condition {
        Condition::PartIs(_) => {
            let is = is_part(image.names(), tree, &part.part);
            push_part_if(alloc, !is, &owner, &part.part, part.span, found)
        }
        Condition::NoReturn(_) => faulty_nodes(alloc, image, part, Fault::Return, found),
        Condition::AssignsNoOuter(_) => {
            faulty_nodes(alloc, image, part, Fault::AssignsOuter, found)
        }
        Condition::TempsSteady(_) => faulty_nodes(alloc, image, part, Fault::Unsteady, found),
        Condition::ValueUnused(_) => {
            let is_unused = is_value_unused(tree, &part.part);
            push_part_if(alloc, !is_unused, &owner, &part.part, part.span, found)
        }
        Condition::FirstEvaluated(_) => evaluated_before(alloc, image, part, found),
        _ => Ok(()),
    }
}

/// Appends what is in the way of the condition of the part of a user's method that stands at these places; nothing, if there is
/// no such part, or if it is no condition of a part. Counts at most one step. Want of memory, if there is not enough of it to look.
pub fn part_witnesses<L: Ledger>(
    alloc: Global,
    image: &Image,
    condition: &Condition,
    part: &MethodPart,
    found: &mut Vec<Witness>,
    steps: &mut Steps<L>,
) -> Result<(), Memory>
    requires { IsOrderly image.now }
    ensures { OnOk result (shown image.now found.new.items ≡ shown image.now found.old.items ++ of_part (asked_by image.now.names) (number_image image.now) part.now.method.class part.now.method.meta part.now.method.selector part.now.from part.now.to (part_standing image.now condition.now)) }
{
    match found_part(alloc, image, part, steps)? {
        None => Ok(()),
        Some(part) => standing(alloc, image, condition, &part, found),
    }
}
