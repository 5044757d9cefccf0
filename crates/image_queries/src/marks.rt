// All nodes of a tree in their order, each marked or not.
ghost use Rattle.std.specs.Prelude.{◌≡◌, ◌++◌, IfOk, OnOk};
ghost use Rattle.std.specs.List.{list_any};
ghost use Rattle.tree_model.specs.Tree.{trees_of};
ghost use Rattle.st_tree.specs.View.{messages_of, statements_of};
ghost use Rattle.image_queries.specs.Asked.{query_of, mentions};
ghost use Rattle.image_queries.specs.Marks.{tree_marks, trees_marks, messages_marks, statements_marks};

use crate::mentions::mentions;
use crate::query::Query;
use rb_base::Memory;
use st_tree::{Message, Node, NodeKind, Sequence, Statement};
use std::alloc::Global;

/// Marks the node, if it may be asked for, and then the nodes below it.
#[cycle(mark)]
#[tactic(auto, using(st_scope::proofs::Weights::weight_lemmas))]
fn mark(query: &Query, node: &Node, marks: &mut Vec<bool>) -> Result<(), Memory>
    ensures { OnOk result (marks.new.items ≡ marks.old.items ++ tree_marks (mentions (query_of query.now)) node.now) }
{
    marks.push(mentions(query, node))?;
    match &node.kind {
        NodeKind::Var { .. } | NodeKind::Literal { .. } => Ok(()),
        NodeKind::Send {
            receiver,
            arguments,
            ..
        } => {
            mark(query, receiver, marks)?;
            mark_nodes(query, arguments.as_slice(), marks)
        }
        NodeKind::Cascade { receiver, messages } => {
            mark(query, receiver, marks)?;
            mark_messages(query, messages.as_slice(), marks)
        }
        NodeKind::Block { body, .. } => mark_statements(query, body.statements.as_slice(), marks),
        NodeKind::Brace { items } => mark_nodes(query, items.as_slice(), marks),
        NodeKind::Assign { value, .. } | NodeKind::Return { value } => mark(query, value, marks),
    }
}

/// The same for nodes in order.
#[cycle(mark)]
#[tactic(auto, using(st_scope::proofs::Weights::weight_lemmas))]
fn mark_nodes(query: &Query, nodes: &[Node], marks: &mut Vec<bool>) -> Result<(), Memory>
    ensures { OnOk result (marks.new.items ≡ marks.old.items ++ trees_marks (mentions (query_of query.now)) (trees_of nodes.now)) }
{
    for node in nodes {
        mark(query, node, marks)?;
    }
    Ok(())
}

/// The same for messages in order.
#[cycle(mark)]
#[tactic(auto, using(st_scope::proofs::Weights::weight_lemmas))]
fn mark_messages(query: &Query, messages: &[Message], marks: &mut Vec<bool>) -> Result<(), Memory>
    ensures { OnOk result (marks.new.items ≡ marks.old.items ++ messages_marks (mentions (query_of query.now)) (messages_of messages.now)) }
{
    for message in messages {
        mark_nodes(query, message.arguments.as_slice(), marks)?;
    }
    Ok(())
}

/// The same for statements in order.
#[cycle(mark)]
#[tactic(auto, using(st_scope::proofs::Weights::weight_lemmas))]
fn mark_statements(
    query: &Query,
    statements: &[Statement],
    marks: &mut Vec<bool>,
) -> Result<(), Memory>
    ensures { OnOk result (marks.new.items ≡ marks.old.items ++ statements_marks (mentions (query_of query.now)) (statements_of statements.now)) }
{
    for statement in statements {
        mark(query, &statement.node, marks)?;
    }
    Ok(())
}

/// The nodes of a sequence in their order, each marked if it may be asked for.
pub(crate) fn marks_of(alloc: Global, query: &Query, body: &Sequence) -> Result<Vec<bool>, Memory>
    ensures { IfOk result (λ marks. marks.items ≡ statements_marks (mentions (query_of query.now)) (statements_of body.now.statements)) }
{
    let mut marks = Vec::new(alloc);
    mark_statements(query, body.statements.as_slice(), &mut marks)?;
    Ok(marks)
}

/// Whether a node is marked.
pub(crate) fn is_any(marks: &[bool]) -> bool
    ensures { result ≡ list_any (λ b. b) marks.now }
{
    marks.iter().any(|mark| *mark)
}
