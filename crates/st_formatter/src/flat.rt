// Whether each block in a tree is flat, asked without recursion.
ghost use Rattle.std.specs.Prelude.{◌≡◌, ◌+◌, ◌<◌, ◌≤◌, ◌&&◌, IfOk, OnOk};
ghost use Rattle.tree_model.specs.Tree.{trees_of};
ghost use Rattle.tree_model.specs.Measure.{weight, trees_weight, messages_weight, statements_weight};
ghost use Rattle.st_tree.specs.View.{messages_of, statements_of, sequence_of};
ghost use Rattle.text_model.specs.Flat.{is_flat, are_trees_flat, are_messages_flat};
ghost use Rattle.st_formatter.specs.Bodies.{is_flat_body};
ghost use Rattle.st_formatter.specs.Waiting.{trees_at};

use crate::bodies::is_bare;
use rb_base::Memory;
use st_tree::{Message, Node, NodeKind, Sequence};
use std::alloc::Global;

/// Puts a node behind those that wait.
#[tactic(auto, using(crate::proofs::WaitingTrees::waiting_rules))]
fn put_node<'n>(node: &'n Node, waiting: &mut Vec<&'n Node>) -> Result<(), Memory>
    ensures flat { OnOk result (are_trees_flat (trees_at waiting.new.items) ≡ (are_trees_flat (trees_at waiting.old.items) && is_flat node.now)) }
    ensures weight { OnOk result (trees_weight (trees_at waiting.new.items) ≡ trees_weight (trees_at waiting.old.items) + (weight node.now + 1)) }
{
    waiting.push(node)?;
    Ok(())
}

/// The same for nodes.
#[tactic(auto, using(crate::proofs::WaitingTrees::waiting_rules))]
fn put_nodes<'n>(nodes: &'n [Node], waiting: &mut Vec<&'n Node>) -> Result<(), Memory>
    ensures flat { OnOk result (are_trees_flat (trees_at waiting.new.items) ≡ (are_trees_flat (trees_at waiting.old.items) && are_trees_flat (trees_of nodes.now))) }
    ensures weight { OnOk result (trees_weight (trees_at waiting.new.items) < trees_weight (trees_at waiting.old.items) + trees_weight (trees_of nodes.now)) }
{
    for node in nodes {
        put_node(node, waiting)?;
    }
    Ok(())
}

/// The same for the arguments of messages.
#[tactic(auto, using(crate::proofs::WaitingTrees::waiting_rules))]
fn put_messages<'n>(messages: &'n [Message], waiting: &mut Vec<&'n Node>) -> Result<(), Memory>
    ensures flat { OnOk result (are_trees_flat (trees_at waiting.new.items) ≡ (are_trees_flat (trees_at waiting.old.items) && are_messages_flat (messages_of messages.now))) }
    ensures weight { OnOk result (trees_weight (trees_at waiting.new.items) < trees_weight (trees_at waiting.old.items) + messages_weight (messages_of messages.now)) }
{
    for message in messages {
        put_nodes(message.arguments.as_slice(), waiting)?;
    }
    Ok(())
}

/// Puts the node of the one statement of a bare body behind those that wait, and answers whether the body is bare.
#[tactic(auto, using(crate::proofs::WaitingTrees::body_rules))]
fn put_body<'n>(body: &'n Sequence, waiting: &mut Vec<&'n Node>) -> Result<bool, Memory>
    ensures flat { IfOk result (λ bare. (are_trees_flat (trees_at waiting.old.items) && is_flat_body (sequence_of body.now)) ≡ (bare && are_trees_flat (trees_at waiting.new.items))) }
    ensures weight { OnOk result (trees_weight (trees_at waiting.new.items) < trees_weight (trees_at waiting.old.items) + statements_weight (statements_of body.now.statements)) }
{
    if !is_bare(body) {
        return Ok(false);
    }
    match body.statements.as_slice().split_first() {
        None => Ok(true),
        Some((first, _)) => {
            put_node(&first.node, waiting)?;
            Ok(true)
        }
    }
}

/// Puts the nodes right below a node behind those that wait, and answers whether the node is no block, or one that is flat where
/// each block in it is.
#[tactic(auto, using(crate::proofs::WaitingTrees::waiting_rules))]
fn put_below<'n>(node: &'n Node, waiting: &mut Vec<&'n Node>) -> Result<bool, Memory>
    ensures flat { IfOk result (λ bare. (are_trees_flat (trees_at waiting.old.items) && is_flat node.now) ≡ (bare && are_trees_flat (trees_at waiting.new.items))) }
    ensures weight { OnOk result (trees_weight (trees_at waiting.new.items) ≤ trees_weight (trees_at waiting.old.items) + weight node.now) }
{
    match &node.kind {
        NodeKind::Var { .. } | NodeKind::Literal { .. } => Ok(true),
        NodeKind::Send {
            receiver,
            arguments,
            ..
        } => {
            put_node(receiver, waiting)?;
            put_nodes(arguments.as_slice(), waiting)?;
            Ok(true)
        }
        NodeKind::Cascade { receiver, messages } => {
            put_node(receiver, waiting)?;
            put_messages(messages.as_slice(), waiting)?;
            Ok(true)
        }
        NodeKind::Block { body, .. } => put_body(body, waiting),
        NodeKind::Brace { items } => {
            put_nodes(items.as_slice(), waiting)?;
            Ok(true)
        }
        NodeKind::Assign { value, .. } | NodeKind::Return { value } => {
            put_node(value, waiting)?;
            Ok(true)
        }
    }
}

/// Whether each block in the tree is flat.
#[tactic(auto, using(crate::proofs::WaitingTrees::waiting_rules))]
pub(crate) fn is_flat(alloc: Global, node: &Node) -> Result<bool, Memory>
    ensures { IfOk result (λ flat. flat ≡ is_flat node.now) }
{
    let mut waiting = Vec::new(alloc);
    put_node(node, &mut waiting)?;
    while let Some(next) = waiting.pop() {
        if !put_below(next, &mut waiting)? {
            return Ok(false);
        }
    }
    Ok(true)
}
