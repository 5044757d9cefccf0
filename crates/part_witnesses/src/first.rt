// What is evaluated before a part.
ghost use Rattle.std.specs.Prelude.{◌≡◌, ◌++◌, map, OnOk};
ghost use Rattle.tree_model.specs.Path.{children};
ghost use Rattle.class_table.specs.Valid.{IsOrderly};
ghost use Rattle.class_table.specs.View.{number_image};
ghost use Rattle.commands.specs.Views.{asked_by};
ghost use Rattle.part_questions.specs.Parts.{part_of};
ghost use Rattle.refusal_witnesses.specs.PartWitnesses as model;
ghost use Rattle.refusal_witnesses.specs.Witnesses.{a_node};
ghost use Rattle.witness_lists.specs.declared.witness.Owner.TheVariants as owner;
ghost use Rattle.witness_lists.specs.Views.{owner_of, shown};
ghost use Rattle.part_witnesses.specs.Held.{IsHeld, held_as};

use crate::held::{Held, code_of};
use crate::parts::FoundPart;
use crate::push::{push_child_if, push_part_if};
use class_table::Image;
use code_conditions::self_name;
use part_questions::{is_before_sends, is_plain, is_return, steps_to_statement};
use rb_base::Memory;
use st_tree::{Node, Part, Path, part_at};
use std::alloc::Global;
use witness_lists::{Owner, Witness, push_node_if};

/// Appends those among so many of the first nodes right below a node that are not plain, by what names mean where the part
/// stands to which `path` leads; `at` leads to the node.
fn push_not_plain(
    alloc: Global,
    image: &Image,
    method: &Held<'_>,
    path: &Path,
    at: &Path,
    node: &Node,
    count: usize,
    found: &mut Vec<Witness>,
) -> Result<(), Memory>
    requires orderly { IsOrderly image.now }
    requires held { IsHeld image.now method.now }
    ensures { OnOk result (shown image.now found.new.items ≡ shown image.now found.old.items ++ map (a_node (owner_of image.now (owner.Method method.now.slot))) (model.not_plain (asked_by image.now.names) (number_image image.now) (held_as image.now.classes method.now) path.now at.now 0 count (children node.now))) }
{
    let code = code_of(method);
    let owner = Owner::Method(method.slot);
    let self_name = self_name(image.names());
    for step in 0..count {
        match node.child(step) {
            None => return Ok(()),
            Some(child) => {
                let plain = is_plain(image, self_name, &code, path, child);
                push_child_if(alloc, !plain, &owner, at, step, found)?;
            }
        }
    }
    Ok(())
}

/// Appends what a node evaluates before the part and is not plain: `at` leads to the node, and the steps lead on from it to
/// the part.
fn push_before(
    alloc: Global,
    image: &Image,
    method: &Held<'_>,
    path: &Path,
    at: Path,
    node: &Node,
    steps: &[usize],
    found: &mut Vec<Witness>,
) -> Result<(), Memory>
    requires orderly { IsOrderly image.now }
    requires held { IsHeld image.now method.now }
    ensures { OnOk result (shown image.now found.new.items ≡ shown image.now found.old.items ++ map (a_node (owner_of image.now (owner.Method method.now.slot))) (model.before_it (asked_by image.now.names) (number_image image.now) (held_as image.now.classes method.now) path.now at node.now steps.now)) }
{
    let owner = Owner::Method(method.slot);
    let mut at = at;
    let mut node = node;
    for step in steps {
        let step = *step;
        push_node_if(alloc, !is_before_sends(node, step), &owner, &at, found)?;
        push_not_plain(alloc, image, method, path, &at, node, step, found)?;
        match node.child(step) {
            None => return push_node_if(alloc, true, &owner, &at, found),
            Some(child) => node = child,
        }
        at.push(step)?;
    }
    Ok(())
}

/// Appends what the innermost statement round an expression evaluates before it and is not plain; and the expression itself,
/// if it is none that can be evaluated first.
fn push_before_expression(
    alloc: Global,
    image: &Image,
    method: &Held<'_>,
    path: &Path,
    found: &mut Vec<Witness>,
) -> Result<(), Memory>
    requires orderly { IsOrderly image.now }
    requires held { IsHeld image.now method.now }
    ensures { OnOk result (shown image.now found.new.items ≡ shown image.now found.old.items ++ map (a_node (owner_of image.now (owner.Method method.now.slot))) (model.before_expression (asked_by image.now.names) (number_image image.now) (held_as image.now.classes method.now) path.now)) }
{
    let owner = Owner::Method(method.slot);
    match part_at(method.tree, path) {
        None => return push_node_if(alloc, true, &owner, path, found),
        Some(node) => {
            if is_return(node) {
                return push_node_if(alloc, true, &owner, path, found);
            }
        }
    }
    let (way, rest) = path
        .as_slice()
        .split_at(steps_to_statement(method.tree, path));
    let way = Path::from_vec(Vec::from_slice(alloc, way)?);
    match part_at(method.tree, &way) {
        None => push_node_if(alloc, true, &owner, path, found),
        Some(statement) => { push_before(alloc, image, method, path, way, statement, rest, found) }
    }
}

/// Appends what is evaluated before the part and is not plain; and the part itself, if it is no expression.
pub(crate) fn evaluated_before(
    alloc: Global,
    image: &Image,
    part: &FoundPart<'_>,
    found: &mut Vec<Witness>,
) -> Result<(), Memory>
    requires orderly { IsOrderly image.now }
    requires held { IsHeld image.now part.now.method }
    ensures { OnOk result (shown image.now found.new.items ≡ shown image.now found.old.items ++ model.evaluated_before (asked_by image.now.names) (number_image image.now) (held_as image.now.classes part.now.method) (part_of part.now.part)) }
{
    let owner = Owner::Method(part.method.slot);
    match &part.part {
        Part::Expression { path } => {
            push_before_expression(alloc, image, &part.method, path, found)
        }
        Part::Run { .. } => push_part_if(alloc, true, &owner, &part.part, part.span, found),
    }
}
