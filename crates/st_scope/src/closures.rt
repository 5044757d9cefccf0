// Assignments that stand in closures.
ghost use Rattle.std.specs.Prelude.{◌≡◌, ℕ, nat_eq, ◌||◌, not};
ghost use Rattle.std.specs.List.{list_any};
ghost use Rattle.tree_model.specs.Tree.{trees_of};
ghost use Rattle.scope_model.specs.Scope.{ScopeOf, block_scope};
ghost use Rattle.scope_model.specs.Uses.{uses, trees_uses, messages_uses, statements_uses, assigned_in_closure_of, assigned_in_closure, assigned_in_closure_doit};
ghost use Rattle.scope_model.specs.NameTests.{is_pseudo_in, form_in};
ghost use Rattle.st_tree.specs.View.{method_of, sequence_of, messages_of, statements_of};
ghost use Rattle.st_scope.specs.Captures.{is_hit, assigned_in_option};

use crate::control::{is_loop, meets};
use crate::special::{declares, form_of, same_name};
use rb_base::{NameId, Names};
use st_tree::{Message, Method, Node, NodeKind, Path, Sequence, Statement, part_at, part_at_doit};

/// Whether the statements of a block stand in a closure: the block stands in one, or is one itself.
fn is_inside(inside: bool, in_place: bool) -> bool
    ensures { result ≡ (inside || not in_place) }
{
    inside || !in_place
}

/// Whether an assignment to the name that means a declaration outside of the node stands in a closure inside the node,
/// or anywhere in it where `inside` says that the node stands in a closure. `in_place` says that the node is run in
/// place if it is a block.
#[cycle(closures)]
#[tactic(auto, using(crate::proofs::Weights::weight_lemmas, crate::proofs::Hits::hit_lemmas))]
fn assigns(node: &Node, name: NameId, names: &Names, in_place: bool, inside: bool) -> bool
    ensures { result ≡ list_any (is_hit inside name) (uses nat_eq (is_pseudo_in names.now) (form_in names.now) in_place node.now) }
{
    match &node.kind {
        NodeKind::Var { .. } | NodeKind::Literal { .. } => false,
        NodeKind::Send {
            receiver,
            selector,
            arguments,
        } => {
            let form = form_of(names, *selector);
            let control = meets(form, receiver, arguments.as_slice());
            assigns(receiver, name, names, is_loop(form) && control, inside)
                || any_assigns(arguments.as_slice(), name, names, control, inside)
        }
        NodeKind::Cascade { receiver, messages } => {
            assigns(receiver, name, names, false, inside)
                || messages_assign(messages.as_slice(), name, names, inside)
        }
        NodeKind::Assign {
            name: assigned,
            value,
        } => (same_name(name, *assigned) && inside) || assigns(value, name, names, false, inside),
        NodeKind::Block { parameters, body } => {
            if declares(
                parameters.as_slice(),
                body.temporaries.as_slice(),
                name,
                names,
            ) {
                return false;
            }
            let inside_it = is_inside(inside, in_place);
            statements_assign(body.statements.as_slice(), name, names, inside_it)
        }
        NodeKind::Brace { items } => any_assigns(items.as_slice(), name, names, false, inside),
        NodeKind::Return { value } => assigns(value, name, names, false, inside),
    }
}

/// The same of nodes in order.
#[cycle(closures)]
#[tactic(auto, using(crate::proofs::Weights::weight_lemmas, crate::proofs::Hits::hit_lemmas))]
fn any_assigns(nodes: &[Node], name: NameId, names: &Names, in_place: bool, inside: bool) -> bool
    ensures { result ≡ list_any (is_hit inside name) (trees_uses nat_eq (is_pseudo_in names.now) (form_in names.now) in_place (trees_of nodes.now)) }
{
    for node in nodes {
        if assigns(node, name, names, in_place, inside) {
            return true;
        }
    }
    false
}

/// The same of messages in order.
#[cycle(closures)]
#[tactic(auto, using(crate::proofs::Weights::weight_lemmas, crate::proofs::Hits::hit_lemmas))]
fn messages_assign(messages: &[Message], name: NameId, names: &Names, inside: bool) -> bool
    ensures { result ≡ list_any (is_hit inside name) (messages_uses nat_eq (is_pseudo_in names.now) (form_in names.now) (messages_of messages.now)) }
{
    for message in messages {
        if any_assigns(message.arguments.as_slice(), name, names, false, inside) {
            return true;
        }
    }
    false
}

/// The same of statements in order.
#[cycle(closures)]
#[tactic(auto, using(crate::proofs::Weights::weight_lemmas, crate::proofs::Hits::hit_lemmas))]
fn statements_assign(statements: &[Statement], name: NameId, names: &Names, inside: bool) -> bool
    ensures { result ≡ list_any (is_hit inside name) (statements_uses nat_eq (is_pseudo_in names.now) (form_in names.now) (statements_of statements.now)) }
{
    for statement in statements {
        if assigns(&statement.node, name, names, false, inside) {
            return true;
        }
    }
    false
}

/// Whether the arguments and temporaries declare the name, and an assignment that means this declaration stands in a
/// closure inside the statements.
fn assigned_in_scope(arguments: &[NameId], body: &Sequence, name: NameId, names: &Names) -> bool
    ensures { let scope : ScopeOf ℕ = record { arguments = arguments.now; temporaries = body.now.temporaries; statements = statements_of body.now.statements } in
        result ≡ assigned_in_closure_of nat_eq (is_pseudo_in names.now) (form_in names.now) scope name }
{
    declares(arguments, body.temporaries.as_slice(), name, names)
        && statements_assign(body.statements.as_slice(), name, names, false)
}

/// The same where the node is a block, and false where it is none.
fn assigned_in_block(node: &Node, name: NameId, names: &Names) -> bool
    ensures { result ≡ assigned_in_option nat_eq (is_pseudo_in names.now) (form_in names.now) (block_scope node.now) name }
{
    match &node.kind {
        NodeKind::Block { parameters, body } => {
            assigned_in_scope(parameters.as_slice(), body, name, names)
        }
        _ => false,
    }
}

/// Whether an assignment that means the name's declaration in the block at the path, or in the method for the empty path,
/// stands in a closure inside that scope. It is false where the scope does not declare the name.
pub fn assigned_in_closure(method: &Method, scope: &Path, name: NameId, names: &Names) -> bool
    ensures { result ≡ assigned_in_closure nat_eq (is_pseudo_in names.now) (form_in names.now) (method_of method.now) scope.now name }
{
    if scope.len() == 0 {
        return assigned_in_scope(method.arguments.as_slice(), &method.body, name, names);
    }
    match part_at(method, scope) {
        None => false,
        Some(node) => assigned_in_block(node, name, names),
    }
}

/// Whether an assignment that means the name's declaration in the block at the path, or in the do-it for the empty path,
/// stands in a closure inside that scope. It is false where the scope does not declare the name.
pub fn assigned_in_closure_doit(body: &Sequence, scope: &Path, name: NameId, names: &Names) -> bool
    ensures { result ≡ assigned_in_closure_doit nat_eq (is_pseudo_in names.now) (form_in names.now) (sequence_of body.now) scope.now name }
{
    if scope.len() == 0 {
        return assigned_in_scope(&[], body, name, names);
    }
    match part_at_doit(body, scope) {
        None => false,
        Some(node) => assigned_in_block(node, name, names),
    }
}
