// Code made anew, in which what is renamed has its new name.
ghost use Rattle.std.specs.Prelude.{◌≡◌, [], ◌∷◌, ◌+◌, ◌<◌, ◌^◌, ◌||◌, false, true, length, IfSome, IfNone, IfOk, OnOk};
ghost use Rattle.tree_model.specs.Tree.{trees_of};
ghost use Rattle.st_tree.specs.View.{messages_of, statements_of, sequence_of, method_of};
ghost use Rattle.renamed_code.specs.Standing.{beneath, stands_in};
ghost use Rattle.rename_model.specs.Renamed.{renamed, beyond};
ghost use Rattle.rename_model.specs.SelectorRenamed.{sends_anew};
ghost use Rattle.renamed_code.specs.Renamings.{IsReadable, is_named_at, is_sent_by, name_after, selector_after, tree_after, trees_after, messages_after, statements_after, sequence_after, method_after, is_in, is_in_trees, is_in_messages, is_in_statements, is_in_method};

use crate::renaming::{Renaming, Walk};
use rb_base::Memory;
use st_tree::{Message, Messages, Method, Node, NodeKind, Nodes, Sequence, Statement, Statements};
use std::alloc::Global;

/// The node where the walk is, after.
#[cycle(anew)]
fn node_anew(
    alloc: Global,
    renaming: &Renaming<'_>,
    node: &Node,
    walk: &mut Walk,
) -> Result<Node, Memory>
    requires { IsReadable renaming.now }
    ensures tree { IfOk result (λ after. after ≡ tree_after renaming.now walk.old.steps.items node.now) }
    ensures found { OnOk result (walk.new.found ≡ (walk.old.found || is_in renaming.now walk.old.steps.items node.now)) }
    ensures steps { OnOk result (walk.new.steps.items ≡ walk.old.steps.items) }
{
    match &node.kind {
        NodeKind::Var { name } => {
            let name = renaming.name_after(alloc, walk, *name)?;
            let kind = NodeKind::Var { name };
            Ok(Node { kind })
        }
        NodeKind::Literal { value } => {
            let value = value.try_copy(alloc)?;
            let kind = NodeKind::Literal { value };
            Ok(Node { kind })
        }
        NodeKind::Send {
            receiver,
            selector,
            arguments,
        } => {
            let selector = renaming.selector_after(walk, *selector);
            let receiver = boxed_child(alloc, renaming, receiver, walk)?;
            let arguments = nodes_anew(alloc, renaming, 1, arguments.as_slice(), walk)?;
            let kind = NodeKind::Send {
                receiver,
                selector,
                arguments,
            };
            Ok(Node { kind })
        }
        NodeKind::Cascade { receiver, messages } => {
            let receiver = boxed_child(alloc, renaming, receiver, walk)?;
            let messages = messages_anew(alloc, renaming, messages.as_slice(), walk)?;
            let kind = NodeKind::Cascade { receiver, messages };
            Ok(Node { kind })
        }
        NodeKind::Assign { name, value } => {
            let name = renaming.name_after(alloc, walk, *name)?;
            let value = boxed_child(alloc, renaming, value, walk)?;
            let kind = NodeKind::Assign { name, value };
            Ok(Node { kind })
        }
        NodeKind::Block { parameters, body } => {
            let parameters = parameters.try_copy(alloc)?;
            let body = Box::new(alloc, sequence_anew(alloc, renaming, body, walk)?)?;
            let kind = NodeKind::Block { parameters, body };
            Ok(Node { kind })
        }
        NodeKind::Brace { items } => {
            let items = nodes_anew(alloc, renaming, 0, items.as_slice(), walk)?;
            let kind = NodeKind::Brace { items };
            Ok(Node { kind })
        }
        NodeKind::Return { value } => {
            let value = boxed_child(alloc, renaming, value, walk)?;
            let kind = NodeKind::Return { value };
            Ok(Node { kind })
        }
    }
}

/// The node right below the end of the walk to which one step leads, after.
#[cycle(anew)]
fn child_anew(
    alloc: Global,
    renaming: &Renaming<'_>,
    step: usize,
    node: &Node,
    walk: &mut Walk,
) -> Result<Node, Memory>
    requires { IsReadable renaming.now }
    ensures tree { IfOk result (λ after. after ≡ sends_anew (selector_after renaming.now) (renamed (beyond step (beneath walk.old.steps.items (name_after renaming.now))) node.now)) }
    ensures found { OnOk result (walk.new.found ≡ (walk.old.found || stands_in (is_sent_by renaming.now) (beneath (step ∷ []) (beneath walk.old.steps.items (is_named_at renaming.now))) node.now)) }
    ensures steps { OnOk result (walk.new.steps.items ≡ walk.old.steps.items) }
{
    walk.steps.push(step)?;
    let after = node_anew(alloc, renaming, node, walk)?;
    let _ = walk.steps.pop();
    Ok(after)
}

/// The node to which the first step below the end of the walk leads, after, in memory of its own.
#[cycle(anew)]
fn boxed_child(
    alloc: Global,
    renaming: &Renaming<'_>,
    node: &Node,
    walk: &mut Walk,
) -> Result<Box<Node>, Memory>
    requires { IsReadable renaming.now }
    ensures tree { IfOk result (λ after. after.value ≡ sends_anew (selector_after renaming.now) (renamed (beyond 0 (beneath walk.old.steps.items (name_after renaming.now))) node.now)) }
    ensures found { OnOk result (walk.new.found ≡ (walk.old.found || stands_in (is_sent_by renaming.now) (beneath (0 ∷ []) (beneath walk.old.steps.items (is_named_at renaming.now))) node.now)) }
    ensures steps { OnOk result (walk.new.steps.items ≡ walk.old.steps.items) }
{
    let after = child_anew(alloc, renaming, 0, node, walk)?;
    Ok(Box::new(alloc, after)?)
}

/// The nodes to which the steps from a number on lead, after.
#[cycle(anew)]
#[tactic(auto, using(st_scope::proofs::Weights::weight_lemmas))]
fn nodes_anew(
    alloc: Global,
    renaming: &Renaming<'_>,
    first: usize,
    nodes: &[Node],
    walk: &mut Walk,
) -> Result<Nodes, Memory>
    requires readable { IsReadable renaming.now }
    requires room { first + length nodes.now < 2 ^ 64 }
    ensures trees { IfOk result (λ after. trees_of after ≡ trees_after renaming.now walk.old.steps.items first (trees_of nodes.now)) }
    ensures found { OnOk result (walk.new.found ≡ (walk.old.found || is_in_trees renaming.now walk.old.steps.items first (trees_of nodes.now))) }
    ensures steps { OnOk result (walk.new.steps.items ≡ walk.old.steps.items) }
{
    let mut list = Nodes::new(alloc);
    let mut step = first;
    for node in nodes {
        list.push(child_anew(alloc, renaming, step, node, walk)?)?;
        step += 1;
    }
    Ok(list)
}

/// The messages of a cascade, after.
#[cycle(anew)]
#[tactic(auto, using(st_scope::proofs::Weights::weight_lemmas))]
fn messages_anew(
    alloc: Global,
    renaming: &Renaming<'_>,
    messages: &[Message],
    walk: &mut Walk,
) -> Result<Messages, Memory>
    requires { IsReadable renaming.now }
    ensures messages { IfOk result (λ after. messages_of after ≡ messages_after renaming.now walk.old.steps.items 1 (messages_of messages.now)) }
    ensures found { OnOk result (walk.new.found ≡ (walk.old.found || is_in_messages renaming.now walk.old.steps.items 1 (messages_of messages.now))) }
    ensures steps { OnOk result (walk.new.steps.items ≡ walk.old.steps.items) }
{
    let mut list = Messages::new(alloc);
    let mut step = 1usize;
    for message in messages {
        let next = step.checked_add(message.arguments.len()).ok_or(Memory)?;
        let selector = renaming.selector_after(walk, message.selector);
        let arguments = nodes_anew(alloc, renaming, step, message.arguments.as_slice(), walk)?;
        list.push(Message {
            selector,
            arguments,
        })?;
        step = next;
    }
    Ok(list)
}

/// Statements, after.
#[cycle(anew)]
#[tactic(auto, using(st_scope::proofs::Weights::weight_lemmas))]
fn statements_anew(
    alloc: Global,
    renaming: &Renaming<'_>,
    statements: &[Statement],
    walk: &mut Walk,
) -> Result<Statements, Memory>
    requires { IsReadable renaming.now }
    ensures statements { IfOk result (λ after. statements_of after ≡ statements_after renaming.now walk.old.steps.items 0 (statements_of statements.now)) }
    ensures found { OnOk result (walk.new.found ≡ (walk.old.found || is_in_statements renaming.now walk.old.steps.items 0 (statements_of statements.now))) }
    ensures steps { OnOk result (walk.new.steps.items ≡ walk.old.steps.items) }
{
    let mut list = Statements::new(alloc);
    let mut step = 0;
    for statement in statements {
        let comments = statement.comments.try_copy(alloc)?;
        let node = child_anew(alloc, renaming, step, &statement.node, walk)?;
        list.push(Statement { comments, node })?;
        step += 1;
    }
    Ok(list)
}

/// A sequence, after.
#[cycle(anew)]
fn sequence_anew(
    alloc: Global,
    renaming: &Renaming<'_>,
    body: &Sequence,
    walk: &mut Walk,
) -> Result<Sequence, Memory>
    requires { IsReadable renaming.now }
    ensures body { IfOk result (λ after. sequence_of after ≡ sequence_after renaming.now walk.old.steps.items (sequence_of body.now)) }
    ensures found { OnOk result (walk.new.found ≡ (walk.old.found || is_in_statements renaming.now walk.old.steps.items 0 (statements_of body.now.statements))) }
    ensures steps { OnOk result (walk.new.steps.items ≡ walk.old.steps.items) }
{
    let temporaries = body.temporaries.try_copy(alloc)?;
    let statements = statements_anew(alloc, renaming, body.statements.as_slice(), walk)?;
    let tail = body.tail.try_copy(alloc)?;
    Ok(Sequence {
        temporaries,
        statements,
        tail,
    })
}

/// A method, after.
fn method_anew(
    alloc: Global,
    renaming: &Renaming<'_>,
    method: &Method,
    walk: &mut Walk,
) -> Result<Method, Memory>
    requires { IsReadable renaming.now }
    ensures method { IfOk result (λ after. method_of after ≡ method_after renaming.now walk.old.steps.items (method_of method.now)) }
    ensures found { OnOk result (walk.new.found ≡ (walk.old.found || is_in_method renaming.now walk.old.steps.items (method_of method.now))) }
{
    let selector = renaming.selector_after(walk, method.selector);
    let arguments = method.arguments.try_copy(alloc)?;
    let head = method.head.try_copy(alloc)?;
    let body = sequence_anew(alloc, renaming, &method.body, walk)?;
    Ok(Method {
        selector,
        arguments,
        head,
        primitive: method.primitive,
        body,
    })
}

/// A method after, if it speaks of what is renamed.
pub(crate) fn renamed_method(
    alloc: Global,
    renaming: &Renaming<'_>,
    method: &Method,
) -> Result<Option<Method>, Memory>
    requires { IsReadable renaming.now }
    ensures method { IfOk result (λ found. IfSome found (λ after. method_of after ≡ method_after renaming.now [] (method_of method.now))) }
    ensures found { IfOk result (λ found. IfSome found (λ after. is_in_method renaming.now [] (method_of method.now) ≡ true)) }
    ensures none { IfOk result (λ found. IfNone found (is_in_method renaming.now [] (method_of method.now) ≡ false)) }
{
    let mut walk = Walk::new(alloc);
    let after = method_anew(alloc, renaming, method, &mut walk)?;
    if !walk.found {
        return Ok(None);
    }
    Ok(Some(after))
}

/// The body of a do-it after, if it speaks of what is renamed.
pub(crate) fn renamed_body(
    alloc: Global,
    renaming: &Renaming<'_>,
    body: &Sequence,
) -> Result<Option<Sequence>, Memory>
    requires { IsReadable renaming.now }
    ensures body { IfOk result (λ found. IfSome found (λ after. sequence_of after ≡ sequence_after renaming.now [] (sequence_of body.now))) }
    ensures found { IfOk result (λ found. IfSome found (λ after. is_in_statements renaming.now [] 0 (statements_of body.now.statements) ≡ true)) }
    ensures none { IfOk result (λ found. IfNone found (is_in_statements renaming.now [] 0 (statements_of body.now.statements) ≡ false)) }
{
    let mut walk = Walk::new(alloc);
    let after = sequence_anew(alloc, renaming, body, &mut walk)?;
    if !walk.found {
        return Ok(None);
    }
    Ok(Some(after))
}
