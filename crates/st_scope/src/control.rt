// Control sends.
ghost use Rattle.std.specs.Prelude.{◌≡◌, ◌==◌, ◌&&◌};
ghost use Rattle.tree_model.specs.Tree.{trees_of};
ghost use Rattle.tree_model.specs.Path.{count};
ghost use Rattle.scope_model.specs.Control.{is_plain_block, are_plain_blocks, meets, is_loop, is_control};
ghost use Rattle.scope_model.specs.NameTests.{form_in};

use crate::special::form_of;
use rb_base::Names;
use scope_model::ControlForm;
use st_tree::{Node, NodeKind};

/// Whether the node is a literal block without parameters.
fn is_plain_block(node: &Node) -> bool
    ensures { result ≡ is_plain_block node.now }
{
    match &node.kind {
        NodeKind::Block { parameters, .. } => parameters.is_empty(),
        _ => false,
    }
}

/// Whether each of the nodes is a literal block without parameters.
fn are_plain_blocks(nodes: &[Node]) -> bool
    ensures { result ≡ are_plain_blocks (trees_of nodes.now) }
{
    for node in nodes {
        if !is_plain_block(node) {
            return false;
        }
    }
    true
}

/// Whether there are so many nodes, each a literal block without parameters.
#[tactic(auto, using(crate::proofs::Counts::count_lemmas))]
fn are_so_many_blocks(nodes: &[Node], number: usize) -> bool
    ensures { result ≡ ((count (trees_of nodes.now) == number) && are_plain_blocks (trees_of nodes.now)) }
{
    nodes.len() == number && are_plain_blocks(nodes)
}

/// Whether receiver and arguments are the literal blocks that the form demands.
pub(crate) fn meets(form: ControlForm, receiver: &Node, arguments: &[Node]) -> bool
    ensures { result ≡ meets form receiver.now (trees_of arguments.now) }
{
    match form {
        ControlForm::OneBlock => are_so_many_blocks(arguments, 1),
        ControlForm::TwoBlocks => are_so_many_blocks(arguments, 2),
        ControlForm::Loop => is_plain_block(receiver) && are_so_many_blocks(arguments, 1),
        ControlForm::NoControl => false,
    }
}

/// Whether the form demands the receiver to be a block.
pub(crate) fn is_loop(form: ControlForm) -> bool
    ensures { result ≡ is_loop form }
{
    match form {
        ControlForm::Loop => true,
        ControlForm::OneBlock | ControlForm::TwoBlocks | ControlForm::NoControl => false,
    }
}

/// Whether the node is a control send: a send of `ifTrue:`, `ifFalse:`, `ifTrue:ifFalse:`, `ifFalse:ifTrue:`, `and:` or
/// `or:` whose arguments are literal blocks without parameters, or of `whileTrue:` or `whileFalse:` whose receiver is
/// one too. A message of a cascade is none.
pub fn is_control(node: &Node, names: &Names) -> bool
    ensures { result ≡ is_control (form_in names.now) node.now }
{
    match &node.kind {
        NodeKind::Send {
            receiver,
            selector,
            arguments,
        } => meets(form_of(names, *selector), receiver, arguments.as_slice()),
        _ => false,
    }
}
