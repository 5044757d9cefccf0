// Nodes that send a selector, or read or assign a name.
ghost use Rattle.std.specs.Prelude.{◌≡◌, false, nat_eq};
ghost use Rattle.std.specs.Option.{option_map_or};
ghost use Rattle.image_model.specs.Uses.{has_message, is_sender, name_used};
ghost use Rattle.st_tree.specs.View.{messages_of};

use rb_base::NameId;
use st_tree::{Message, Node, NodeKind};

/// Whether one of the messages has the selector.
fn has_message(messages: &[Message], selector: NameId) -> bool
    ensures { result ≡ has_message nat_eq selector (messages_of messages.now) }
{
    for message in messages {
        if selector == message.selector {
            return true;
        }
    }
    false
}

/// Whether the node sends the selector.
pub fn sends(node: &Node, selector: NameId) -> bool
    ensures { result ≡ is_sender nat_eq selector node.now }
{
    match &node.kind {
        NodeKind::Send { selector: sent, .. } => selector == *sent,
        NodeKind::Cascade { messages, .. } => has_message(messages.as_slice(), selector),
        _ => false,
    }
}

/// Whether the node reads or assigns the name.
pub fn uses(node: &Node, name: NameId) -> bool
    ensures { result ≡ option_map_or (nat_eq name) (name_used node.now) false }
{
    match &node.kind {
        NodeKind::Var { name: used } | NodeKind::Assign { name: used, .. } => name == *used,
        _ => false,
    }
}
