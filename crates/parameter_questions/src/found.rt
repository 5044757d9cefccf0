// The nodes of a body that read a name or send a selector, with the paths that lead to them.
ghost use Rattle.std.specs.Prelude.{◌≡◌, filter, IfOk};
ghost use Rattle.tree_model.specs.Nodes.{nodes};
ghost use Rattle.st_tree.specs.View.{sequence_of};
ghost use Rattle.placed_nodes.specs.Placing.{placed};
ghost use Rattle.parameter_questions.specs.Found.{reads, is_sought};

use node_questions::sends;
use placed_nodes::{PlacedNode, placed_nodes};
use rb_base::{Memory, NameId};
use st_tree::{Node, NodeKind, Sequence};
use std::alloc::Global;

/// Which nodes are sought.
#[derive(Clone, Copy, Debug)]
pub enum Sought {
    /// Those that read the name.
    Read(NameId),
    /// Those that send the selector.
    Sent(NameId),
}

/// Whether the node reads the name.
pub(crate) fn reads(node: &Node, name: NameId) -> bool
    ensures { result ≡ reads name node.now }
{
    match &node.kind {
        NodeKind::Var { name: read } => name == *read,
        _ => false,
    }
}

/// Whether the node is sought.
fn is_sought(what: &Sought, node: &Node) -> bool
    ensures { result ≡ is_sought what.now node.now }
{
    match what {
        Sought::Read(name) => reads(node, *name),
        Sought::Sent(selector) => sends(node, *selector),
    }
}

/// The sought nodes of the body, each before those below it.
pub fn found_in<'b>(
    alloc: Global,
    what: &Sought,
    body: &'b Sequence,
) -> Result<Vec<PlacedNode<'b>>, Memory>
    ensures { IfOk result (λ found. placed found.items ≡ filter (λ e. is_sought what.now e.1) (nodes (sequence_of body.now))) }
{
    let mut found = placed_nodes(alloc, body)?;
    found.retain(|placed| is_sought(what, placed.node));
    Ok(found)
}
