// Whether code may speak of what is renamed, by the names that stand in its nodes.
ghost use Rattle.std.specs.Prelude.{◌≡◌, ◌||◌, IfOk};
ghost use Rattle.st_tree.specs.View.{messages_of, sequence_of, method_of};
ghost use Rattle.std.specs.List.{list_any};
ghost use Rattle.mentions.specs.Listing.{pointed};
ghost use Rattle.rename_model.specs.Conditions.{has_message_that};
ghost use Rattle.renamed_code.specs.ChangedCode.{renamed_of};
ghost use Rattle.renamed_code.specs.Renamings.{is_the_selector, may_mean, may_stand_in, may_stand_in_method};

use crate::renamed::Renamed;
use crate::renaming::{has_name, is_the_selector};
use mentions::nodes_of;
use rb_base::Memory;
use st_tree::{Message, Method, Node, NodeKind, Sequence};
use std::alloc::Global;

/// Whether one of the messages has the selector that is renamed.
fn has_message(what: &Renamed, messages: &[Message]) -> bool
    ensures { result ≡ has_message_that (is_the_selector (renamed_of what.now)) (messages_of messages.now) }
{
    for message in messages {
        if is_the_selector(what, message.selector) {
            return true;
        }
    }
    false
}

/// Whether the node itself may mean what is renamed.
fn may_mean(what: &Renamed, node: &Node) -> bool
    ensures { result ≡ may_mean (renamed_of what.now) node.now }
{
    match &node.kind {
        NodeKind::Var { name } | NodeKind::Assign { name, .. } => has_name(what, *name),
        NodeKind::Send { selector, .. } => is_the_selector(what, *selector),
        NodeKind::Cascade { messages, .. } => has_message(what, messages.as_slice()),
        _ => false,
    }
}

/// Whether one of the nodes may mean what is renamed.
fn may_one_mean(what: &Renamed, nodes: &[&Node]) -> bool
    ensures { result ≡ list_any (may_mean (renamed_of what.now)) (pointed nodes.now) }
{
    for node in nodes {
        if may_mean(what, *node) {
            return true;
        }
    }
    false
}

/// Whether a node of the body may mean what is renamed.
pub(crate) fn may_stand_in(alloc: Global, what: &Renamed, body: &Sequence) -> Result<bool, Memory>
    ensures { IfOk result (λ may. may ≡ may_stand_in (renamed_of what.now) (sequence_of body.now)) }
{
    let nodes = nodes_of(alloc, body)?;
    Ok(may_one_mean(what, nodes.as_slice()))
}

/// Whether the selector of the method is renamed, or a node of it may mean what is.
pub(crate) fn may_stand_in_method(
    alloc: Global,
    what: &Renamed,
    method: &Method,
) -> Result<bool, Memory>
    ensures { IfOk result (λ may. may ≡ may_stand_in_method (renamed_of what.now) (method_of method.now)) }
{
    if is_the_selector(what, method.selector) {
        return Ok(true);
    }
    may_stand_in(alloc, what, &method.body)
}
