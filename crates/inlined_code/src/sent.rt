// Messages that nodes of methods send.
ghost use Rattle.std.specs.Prelude.{◌≡◌, option_map};
ghost use Rattle.st_tree.specs.View.{method_of};
ghost use Rattle.command_model.specs.Parts.{Expression};
ghost use Rattle.command_model.specs.Places.{sent_by};
ghost use Rattle.inlined_code.specs.Sending.{send_of};

use rb_base::NameId;
use st_tree::{Method, Node, NodeKind, Nodes, Path, part_at};

/// A message that a node sends which is no cascade, and where the node stands in a method.
#[derive(Clone, Copy)]
pub struct Sent<'a> {
    pub path: &'a Path,
    pub receiver: &'a Node,
    pub selector: NameId,
    pub arguments: &'a Nodes,
}

/// The message that the node at the end of the path sends; `None` where the path leads to no node, or to one that sends none
/// or is a cascade.
pub fn sent_by<'a>(method: &'a Method, path: &'a Path) -> Option<Sent<'a>>
    ensures { option_map send_of result ≡ sent_by (method_of method.now) (Expression path.now) }
{
    match &part_at(method, path)?.kind {
        NodeKind::Send {
            receiver,
            selector,
            arguments,
        } => Some(Sent {
            path,
            receiver,
            selector: *selector,
            arguments,
        }),
        _ => None,
    }
}
