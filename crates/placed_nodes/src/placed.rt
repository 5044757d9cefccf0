// The nodes of a body with the paths that lead to them, in one list.
ghost use Rattle.std.specs.Prelude.{◌≡◌, ◌≤◌, ◌+◌, [], ◌∷◌, ◌++◌, length, IfOk, OnOk};
ghost use Rattle.tree_model.specs.Tree.{trees_of};
ghost use Rattle.tree_model.specs.Nodes.{nodes};
ghost use Rattle.st_tree.specs.View.{messages_of, statements_of, sequence_of};
ghost use Rattle.placed_nodes.specs.Placing.{placed, in_tree, in_trees, in_messages, in_statements};

use rb_base::Memory;
use st_tree::{Message, Node, NodeKind, Path, Sequence, Statement};
use std::alloc::Global;

/// A node, and the path that leads to it.
#[derive(Drop)]
pub struct PlacedNode<'b> {
    pub path: Path,
    pub node: &'b Node,
}

/// Puts the node at the end that stands one step further, and then those below it.
#[cycle(put)]
#[tactic(auto, using(crate::proofs::Walking::walk_lemmas))]
fn put_below<'b>(
    alloc: Global,
    node: &'b Node,
    step: usize,
    path: &mut Vec<usize>,
    found: &mut Vec<PlacedNode<'b>>,
) -> Result<(), Memory>
    ensures path { OnOk result (path.new.items ≡ path.old.items) }
    ensures found { OnOk result (placed found.new.items ≡ placed found.old.items ++ in_tree (path.old.items ++ step ∷ []) node.now) }
{
    path.push(step)?;
    put_node(alloc, node, path, found)?;
    path.pop();
    Ok(())
}

/// Puts the node at the end, and then those below it.
#[cycle(put)]
#[tactic(auto, using(crate::proofs::Walking::walk_lemmas))]
fn put_node<'b>(
    alloc: Global,
    node: &'b Node,
    path: &mut Vec<usize>,
    found: &mut Vec<PlacedNode<'b>>,
) -> Result<(), Memory>
    ensures path { OnOk result (path.new.items ≡ path.old.items) }
    ensures found { OnOk result (placed found.new.items ≡ placed found.old.items ++ in_tree path.old.items node.now) }
{
    found.push(PlacedNode {
        path: Path::from_vec(Vec::from_slice(alloc, path.as_slice())?),
        node,
    })?;
    match &node.kind {
        NodeKind::Var { .. } | NodeKind::Literal { .. } => Ok(()),
        NodeKind::Send {
            receiver,
            arguments,
            ..
        } => {
            put_below(alloc, receiver, 0, path, found)?;
            put_nodes(alloc, arguments.as_slice(), 1, path, found)
        }
        NodeKind::Cascade { receiver, messages } => {
            put_below(alloc, receiver, 0, path, found)?;
            put_messages(alloc, messages.as_slice(), path, found)
        }
        NodeKind::Block { body, .. } => {
            put_statements(alloc, body.statements.as_slice(), path, found)
        }
        NodeKind::Brace { items } => put_nodes(alloc, items.as_slice(), 0, path, found),
        NodeKind::Assign { value, .. } | NodeKind::Return { value } => {
            put_below(alloc, value, 0, path, found)
        }
    }
}

/// The same for nodes whose steps go up from the first one.
#[cycle(put)]
#[tactic(auto, using(crate::proofs::Walking::walk_lemmas))]
fn put_nodes<'b>(
    alloc: Global,
    nodes: &'b [Node],
    first: usize,
    path: &mut Vec<usize>,
    found: &mut Vec<PlacedNode<'b>>,
) -> Result<(), Memory>
    requires { first + length nodes.now ≤ usize.MAX }
    ensures path { OnOk result (path.new.items ≡ path.old.items) }
    ensures found { OnOk result (placed found.new.items ≡ placed found.old.items ++ in_trees path.old.items first (trees_of nodes.now)) }
{
    for (i, node) in nodes.iter().enumerate() {
        put_below(alloc, node, first + i, path, found)?;
    }
    Ok(())
}

/// The same for the messages of a cascade.
#[cycle(put)]
#[tactic(auto, using(crate::proofs::Walking::walk_lemmas))]
fn put_messages<'b>(
    alloc: Global,
    messages: &'b [Message],
    path: &mut Vec<usize>,
    found: &mut Vec<PlacedNode<'b>>,
) -> Result<(), Memory>
    ensures path { OnOk result (path.new.items ≡ path.old.items) }
    ensures found { OnOk result (placed found.new.items ≡ placed found.old.items ++ in_messages path.old.items 1 (messages_of messages.now)) }
{
    let mut first = 1_usize;
    for message in messages {
        let arguments = message.arguments.as_slice();
        let Some(next) = first.checked_add(arguments.len()) else {
            return Err(Memory);
        };
        put_nodes(alloc, arguments, first, path, found)?;
        first = next;
    }
    Ok(())
}

/// The same for statements.
#[cycle(put)]
#[tactic(auto, using(crate::proofs::Walking::walk_lemmas))]
fn put_statements<'b>(
    alloc: Global,
    statements: &'b [Statement],
    path: &mut Vec<usize>,
    found: &mut Vec<PlacedNode<'b>>,
) -> Result<(), Memory>
    ensures path { OnOk result (path.new.items ≡ path.old.items) }
    ensures found { OnOk result (placed found.new.items ≡ placed found.old.items ++ in_statements path.old.items 0 (statements_of statements.now)) }
{
    for (i, statement) in statements.iter().enumerate() {
        put_below(alloc, &statement.node, i, path, found)?;
    }
    Ok(())
}

/// The nodes of the body, each before those below it. Want of memory, if there is not enough of it for the list.
pub fn placed_nodes<'b>(alloc: Global, body: &'b Sequence) -> Result<Vec<PlacedNode<'b>>, Memory>
    ensures { IfOk result (λ found. placed found.items ≡ nodes (sequence_of body.now)) }
{
    let mut path = Vec::new(alloc);
    let mut found = Vec::new(alloc);
    put_statements(alloc, body.statements.as_slice(), &mut path, &mut found)?;
    Ok(found)
}
