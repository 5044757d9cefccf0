// Places in a method: the innermost scope round one, and the closures round it.
ghost use Rattle.std.specs.Prelude.{◌≡◌, ◌&&◌, false, not, nat_le, option_map, unwrap_or, IfOk};
ghost use Rattle.std.specs.Option.{option_copied};
ghost use Rattle.tree_model.specs.Tree.{no_statements};
ghost use Rattle.tree_model.specs.Path.{nth, statement_trees};
ghost use Rattle.scope_model.specs.Control as control;
ghost use Rattle.scope_model.specs.FreeNames as free;
ghost use Rattle.scope_model.specs.Scope.{block_scope};
ghost use Rattle.scope_model.specs.NameTests.{form_in};
ghost use Rattle.st_tree.specs.View.{statements_of, sequence_of, method_of};
ghost use Rattle.command_model.specs.Asked.{no_parts};
ghost use Rattle.command_model.specs.Numbers.{number_asked};
ghost use Rattle.command_model.specs.Places as places;
ghost use Rattle.command_model.specs.PartConditions as model;
ghost use Rattle.part_questions.specs.Round.{closure_round, innermost_from};

use crate::names::is_loop;
use rb_base::{Memory, NameId, Names};
use st_scope::{assigned_in_closure, is_control};
use st_tree::{Method, Node, NodeKind, Path, Sequence, Statement, part_at};
use std::alloc::Global;

/// Whether the node is a literal block.
fn is_block(node: &Node) -> bool
    ensures { result ≡ control.is_block node.now }
{
    match &node.kind {
        NodeKind::Block { .. } => true,
        _ => false,
    }
}

/// Whether one step from the node leads to a literal block of a control send.
fn steps_in_place(names: &Names, node: &Node, step: usize) -> bool
    ensures { result ≡ control.steps_in_place (form_in names.now) node.now step }
{
    match &node.kind {
        NodeKind::Send { selector, .. } => {
            if step == 0 {
                is_loop(names, *selector) && is_control(node, names)
            } else {
                is_control(node, names)
            }
        }
        _ => false,
    }
}

/// The node of the statement of a number, counted from 0.
fn statement_node(body: &Sequence, at: usize) -> Option<&Node>
    ensures { option_copied result ≡ nth (statement_trees (sequence_of body.now).statements) at }
{
    match body.statements.as_slice().get(at) {
        Some(statement) => Some(&statement.node),
        None => None,
    }
}

/// The statements of a block, and none of any other node.
fn block_statements(node: &Node) -> &[Statement]
    ensures { statements_of result.now ≡ unwrap_or (option_map (λ s. s.statements) (block_scope node.now)) no_statements }
{
    match &node.kind {
        NodeKind::Block { body, .. } => body.statements.as_slice(),
        _ => &[],
    }
}

/// The statements of the body of the method, for the empty path, or of the block where the path leads; none where there is no
/// block.
pub fn statements_at<'m>(method: &'m Method, path: &Path) -> &'m [Statement]
    ensures { statements_of result.now ≡ free.statements_at (method_of method.now).body path.now }
{
    if path.len() == 0 {
        return method.body.statements.as_slice();
    }
    match part_at(method, path) {
        None => &[],
        Some(node) => block_statements(node),
    }
}

/// Whether the path leads from the node, which is no block of a control send, to a closure.
fn is_closure_at(names: &Names, node: &Node, path: &[usize]) -> bool
    ensures { result ≡ control.is_closure_at (form_in names.now) false node.now path.now }
{
    let mut node = node;
    let mut in_place = false;
    for step in path {
        in_place = steps_in_place(names, node, *step);
        match node.child(*step) {
            None => return false,
            Some(child) => node = child,
        }
    }
    is_block(node) && !in_place
}

/// Whether the path leads to a closure.
fn is_closure_in(names: &Names, body: &Sequence, path: &Path) -> bool
    ensures { result ≡ places.is_closure_in (form_in names.now) (sequence_of body.now) path.now }
{
    let Some((first, rest)) = path.as_slice().split_first() else {
        return false;
    };
    match statement_node(body, *first) {
        None => false,
        Some(node) => is_closure_at(names, node, rest),
    }
}

/// Whether the path leads to a block of a control send.
pub(crate) fn is_in_place(names: &Names, method: &Method, path: &Path) -> bool
    ensures { result ≡ places.is_in_place (form_in names.now) (method_of method.now).body path.now }
{
    match part_at(method, path) {
        None => false,
        Some(node) => is_block(node) && !is_closure_in(names, &method.body, path),
    }
}

/// Whether the node, to which `depth` steps lead, at least `from`, is a block that is not run in place.
fn is_closure_from(from: usize, depth: usize, node: &Node, in_place: bool) -> bool
    ensures { result ≡ (nat_le from depth && (control.is_block node.now && not in_place)) }
{
    from <= depth && (is_block(node) && !in_place)
}

/// Whether a path that goes on from the node of a statement enters a closure to which so many steps lead at least.
fn closure_round(names: &Names, from: usize, node: &Node, path: &[usize]) -> bool
    ensures { result ≡ closure_round (form_in names.now) from false 1 node.now path.now }
{
    let mut node = node;
    let mut in_place = false;
    for (i, step) in path.iter().enumerate() {
        if is_closure_from(from, i + 1, node, in_place) {
            return true;
        }
        in_place = steps_in_place(names, node, *step);
        match node.child(*step) {
            None => return false,
            Some(child) => node = child,
        }
    }
    false
}

/// Whether the place to which the path leads stands in a closure to which at least `from` steps lead.
pub fn stands_in_closure(names: &Names, method: &Method, from: usize, path: &Path) -> bool
    ensures { result ≡ places.stands_in_closure (form_in names.now) (method_of method.now) from path.now }
{
    let Some((first, rest)) = path.as_slice().split_first() else {
        return false;
    };
    match statement_node(&method.body, *first) {
        None => false,
        Some(node) => closure_round(names, from, node, rest),
    }
}

/// How many steps lead to the innermost block that a path enters on from the node of a statement, and 0 where it enters none.
fn innermost_from(node: &Node, path: &[usize]) -> usize
    ensures { result ≡ innermost_from 0 1 node.now path.now }
{
    let mut node = node;
    let mut found = 0;
    for (i, step) in path.iter().enumerate() {
        if is_block(node) {
            found = i + 1;
        }
        match node.child(*step) {
            None => return found,
            Some(child) => node = child,
        }
    }
    found
}

/// How many steps of the path lead to the innermost scope round its place: 0 for the method itself.
pub fn innermost(method: &Method, path: &Path) -> usize
    ensures { result ≡ places.innermost (method_of method.now) path.now }
{
    let Some((first, rest)) = path.as_slice().split_first() else {
        return 0;
    };
    match statement_node(&method.body, *first) {
        None => 0,
        Some(node) => innermost_from(node, rest),
    }
}

/// Whether no assignment to the name, a temporary of the scope to which `scope` steps of the path lead, stands in a closure
/// inside that scope. Want of memory, if there is not enough of it for the path.
pub fn is_assigned_in_the_open(
    alloc: Global,
    names: &Names,
    method: &Method,
    path: &Path,
    scope: usize,
    name: NameId,
) -> Result<bool, Memory>
    ensures { IfOk result (λ is. is ≡ model.is_assigned_in_the_open (number_asked names.now 0 no_parts) (method_of method.now) path.now scope name) }
{
    let steps = path.as_slice();
    let way = if scope < steps.len() {
        &steps[..scope]
    } else {
        steps
    };
    let round = Path::from_vec(Vec::from_slice(alloc, way)?);
    Ok(!assigned_in_closure(method, &round, name, names))
}
