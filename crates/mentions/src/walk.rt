// All nodes of a body in their order.
ghost use Rattle.std.specs.Prelude.{◌≡◌, ◌++◌, IfOk, OnOk};
ghost use Rattle.tree_model.specs.Tree.{trees_of};
ghost use Rattle.tree_model.specs.Nodes.{nodes};
ghost use Rattle.st_tree.specs.View.{messages_of, statements_of, sequence_of};
ghost use Rattle.mentions.specs.Mentions.{trees_of_nodes};
ghost use Rattle.mentions.specs.NodeLists.{nodes_in_tree, nodes_in_trees, nodes_in_messages, nodes_in_statements};
ghost use Rattle.mentions.specs.Listing.{pointed};

use rb_base::Memory;
use st_tree::{Message, Node, NodeKind, Sequence, Statement};
use std::alloc::Global;

/// Puts the node at the end, and then the nodes below it.
#[cycle(put)]
#[tactic(auto, using(st_scope::proofs::Weights::weight_lemmas))]
fn put_node<'b>(node: &'b Node, found: &mut Vec<&'b Node>) -> Result<(), Memory>
    ensures { OnOk result (pointed found.new.items ≡ pointed found.old.items ++ nodes_in_tree node.now) }
{
    found.push(node)?;
    match &node.kind {
        NodeKind::Var { .. } | NodeKind::Literal { .. } => Ok(()),
        NodeKind::Send {
            receiver,
            arguments,
            ..
        } => {
            put_node(receiver, found)?;
            put_nodes(arguments.as_slice(), found)
        }
        NodeKind::Cascade { receiver, messages } => {
            put_node(receiver, found)?;
            put_messages(messages.as_slice(), found)
        }
        NodeKind::Block { body, .. } => put_statements(body.statements.as_slice(), found),
        NodeKind::Brace { items } => put_nodes(items.as_slice(), found),
        NodeKind::Assign { value, .. } | NodeKind::Return { value } => put_node(value, found),
    }
}

/// The same for nodes in order.
#[cycle(put)]
#[tactic(auto, using(st_scope::proofs::Weights::weight_lemmas))]
fn put_nodes<'b>(nodes: &'b [Node], found: &mut Vec<&'b Node>) -> Result<(), Memory>
    ensures { OnOk result (pointed found.new.items ≡ pointed found.old.items ++ nodes_in_trees (trees_of nodes.now)) }
{
    for node in nodes {
        put_node(node, found)?;
    }
    Ok(())
}

/// The same for messages in order.
#[cycle(put)]
#[tactic(auto, using(st_scope::proofs::Weights::weight_lemmas))]
fn put_messages<'b>(messages: &'b [Message], found: &mut Vec<&'b Node>) -> Result<(), Memory>
    ensures { OnOk result (pointed found.new.items ≡ pointed found.old.items ++ nodes_in_messages (messages_of messages.now)) }
{
    for message in messages {
        put_nodes(message.arguments.as_slice(), found)?;
    }
    Ok(())
}

/// The same for statements in order.
#[cycle(put)]
#[tactic(auto, using(st_scope::proofs::Weights::weight_lemmas))]
fn put_statements<'b>(statements: &'b [Statement], found: &mut Vec<&'b Node>) -> Result<(), Memory>
    ensures { OnOk result (pointed found.new.items ≡ pointed found.old.items ++ nodes_in_statements (statements_of statements.now)) }
{
    for statement in statements {
        put_node(&statement.node, found)?;
    }
    Ok(())
}

/// References to all nodes of the body, each before the nodes below it.
pub fn nodes_of<'b>(alloc: Global, body: &'b Sequence) -> Result<Vec<&'b Node>, Memory>
    ensures { IfOk result (λ found. pointed found.items ≡ trees_of_nodes (nodes (sequence_of body.now))) }
{
    let mut found = Vec::new(alloc);
    put_statements(body.statements.as_slice(), &mut found)?;
    Ok(found)
}
