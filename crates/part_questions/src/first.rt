// What is evaluated before a part.
ghost use Rattle.std.specs.Prelude.{◌≡◌, suc, ◌≤◌, length, take, drop, IfOk};
ghost use Rattle.tree_model.specs.Path.{children};
ghost use Rattle.st_tree.specs.View.{method_of};
ghost use Rattle.class_table.specs.Valid.{IsLive, IsOrderly};
ghost use Rattle.class_table.specs.View.{number_image};
ghost use Rattle.command_model.specs.Asked.{no_parts};
ghost use Rattle.command_model.specs.Numbers.{number_asked};
ghost use Rattle.command_model.specs.Places as places;
ghost use Rattle.command_model.specs.PartConditions as model;
ghost use Rattle.part_questions.specs.Parts.{part_of};
ghost use Rattle.part_questions.specs.Codes.{entry_of};
ghost use Rattle.part_questions.specs.Before.{is_before_sends, are_first_plain, is_plain_before};

use crate::code::{MethodCode, is_plain};
use crate::faults::is_return;
use crate::places::innermost;
use class_table::Image;
use rb_base::{Memory, NameId};
use st_tree::{Method, Node, NodeKind, Part, Path, part_at};
use std::alloc::Global;

/// Whether no message of a cascade is sent before the step is taken into the node.
pub fn is_before_sends(node: &Node, step: usize) -> bool
    ensures { result ≡ is_before_sends node.now step }
{
    match &node.kind {
        NodeKind::Cascade { messages, .. } => match messages.as_slice().first() {
            Some(message) => step <= message.arguments.len(),
            None => true,
        },
        _ => true,
    }
}

/// Whether so many of the first nodes right below the node are plain, by what names mean at the path.
fn are_first_plain(
    image: &Image,
    self_name: NameId,
    code: &MethodCode<'_>,
    path: &Path,
    node: &Node,
    count: usize,
) -> bool
    requires orderly { IsOrderly image.now }
    requires live { IsLive image.now.class_order code.now.class }
    ensures { result ≡ are_first_plain (number_asked image.now.names self_name no_parts) (number_image image.now) (entry_of image.now code.now) path.now count (children node.now) }
{
    for step in 0..count {
        match node.child(step) {
            None => return true,
            Some(child) => {
                if !is_plain(image, self_name, code, path, child) {
                    return false;
                }
            }
        }
    }
    true
}

/// Whether the node evaluates nothing but plain expressions before the node to which the steps lead on from it.
fn is_plain_before(
    image: &Image,
    self_name: NameId,
    code: &MethodCode<'_>,
    path: &Path,
    node: &Node,
    steps: &[usize],
) -> bool
    requires orderly { IsOrderly image.now }
    requires live { IsLive image.now.class_order code.now.class }
    ensures { result ≡ is_plain_before (number_asked image.now.names self_name no_parts) (number_image image.now) (entry_of image.now code.now) path.now node.now steps.now }
{
    let mut node = node;
    for step in steps {
        if !is_before_sends(node, *step) {
            return false;
        }
        if !are_first_plain(image, self_name, code, path, node, *step) {
            return false;
        }
        match node.child(*step) {
            None => return false,
            Some(child) => node = child,
        }
    }
    true
}

/// How many steps of the path lead to the innermost statement round its place.
#[tactic(auto, using(crate::proofs::Firsts::taken_all, crate::proofs::Firsts::dropped_all))]
pub fn steps_to_statement(method: &Method, path: &Path) -> usize
    ensures bound { result ≤ length path.now }
    ensures way { take result path.now ≡ take (suc (places.innermost (method_of method.now) path.now)) path.now }
    ensures rest { drop result path.now ≡ drop (suc (places.innermost (method_of method.now) path.now)) path.now }
{
    let scope = innermost(method, path);
    if scope < path.len() {
        scope + 1
    } else {
        path.len()
    }
}

/// Whether the part is an expression before which its innermost statement evaluates nothing but plain expressions. `self_name`
/// is the name `self`. Want of memory, if there is not enough of it for a path.
pub fn is_first_evaluated(
    alloc: Global,
    image: &Image,
    self_name: NameId,
    code: &MethodCode<'_>,
    part: &Part,
) -> Result<bool, Memory>
    requires orderly { IsOrderly image.now }
    requires live { IsLive image.now.class_order code.now.class }
    ensures { IfOk result (λ is. is ≡ model.is_first_evaluated (number_asked image.now.names self_name no_parts) (number_image image.now) (entry_of image.now code.now) (part_of part.now)) }
{
    let Part::Expression { path } = part else {
        return Ok(false);
    };
    let Some(node) = part_at(code.tree, path) else {
        return Ok(false);
    };
    if is_return(node) {
        return Ok(false);
    }
    let (way, rest) = path
        .as_slice()
        .split_at(steps_to_statement(code.tree, path));
    let way = Path::from_vec(Vec::from_slice(alloc, way)?);
    match part_at(code.tree, &way) {
        None => Ok(false),
        Some(statement) => { Ok(is_plain_before(image, self_name, code, path, statement, rest)) }
    }
}
