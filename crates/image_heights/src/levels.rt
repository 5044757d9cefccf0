// Whether code is too high, by a walk that goes no deeper than is allowed.
ghost use Rattle.std.specs.Prelude.{◌≡◌, ◌≤◌, nat_le};
ghost use Rattle.std.specs.List.{list_any};
ghost use Rattle.tree_model.specs.Tree.{trees_of};
ghost use Rattle.tree_model.specs.Measure as measure;
ghost use Rattle.st_tree.specs.View.{messages_of, statements_of, sequence_of};
ghost use Rattle.parameter_questions.specs.Questions.{is_high};
ghost use Rattle.image_heights.specs.High.{is_high_change};

use change_set::Change;
use st_tree::{Message, Node, NodeKind, Sequence, Statement, height};

/// The greatest height of code that is changed.
const HIGHEST: usize = 200;

/// Whether the node is at most as high as levels are left. Only the levels of a literal are all counted.
#[cycle(levels)]
fn fits(node: &Node, left: usize) -> bool
    requires { left ≤ 200 }
    ensures { result ≡ nat_le (measure.height node.now) left }
{
    if left == 0 {
        return false;
    }
    let below = left - 1;
    match &node.kind {
        NodeKind::Var { .. } => true,
        NodeKind::Literal { .. } => height(node) <= left,
        NodeKind::Send {
            receiver,
            arguments,
            ..
        } => fits(receiver, below) && all_fit(arguments.as_slice(), below),
        NodeKind::Cascade { receiver, messages } => {
            fits(receiver, below) && messages_fit(messages.as_slice(), below)
        }
        NodeKind::Assign { value, .. } | NodeKind::Return { value } => fits(value, below),
        NodeKind::Block { body, .. } => statements_fit(body.statements.as_slice(), below),
        NodeKind::Brace { items } => all_fit(items.as_slice(), below),
    }
}

/// Whether each node is.
#[cycle(levels)]
fn all_fit(nodes: &[Node], left: usize) -> bool
    requires { left ≤ 200 }
    ensures { result ≡ nat_le (measure.trees_height (trees_of nodes.now)) left }
{
    for node in nodes {
        if !fits(node, left) {
            return false;
        }
    }
    true
}

/// Whether the arguments of each message are.
#[cycle(levels)]
fn messages_fit(messages: &[Message], left: usize) -> bool
    requires { left ≤ 200 }
    ensures { result ≡ nat_le (measure.messages_height (messages_of messages.now)) left }
{
    for message in messages {
        if !all_fit(message.arguments.as_slice(), left) {
            return false;
        }
    }
    true
}

/// Whether the node of each statement is.
#[cycle(levels)]
fn statements_fit(statements: &[Statement], left: usize) -> bool
    requires { left ≤ 200 }
    ensures { result ≡ nat_le (measure.statements_height (statements_of statements.now)) left }
{
    for statement in statements {
        if !fits(&statement.node, left) {
            return false;
        }
    }
    true
}

/// Whether the body is higher than 200 nodes. However high it is, the walk goes no deeper than that.
pub fn is_high(body: &Sequence) -> bool
    ensures { result ≡ is_high (sequence_of body.now) }
{
    !statements_fit(body.statements.as_slice(), HIGHEST)
}

/// Whether one of the changes puts a method or a do-it in that is higher than 200 nodes.
pub fn makes_high(changes: &[Change]) -> bool
    ensures { result ≡ list_any is_high_change changes.now }
{
    for change in changes {
        let high = match change {
            Change::Method { rec, .. } => is_high(&rec.tree.body),
            Change::DoIt { doit, .. } => is_high(&doit.body),
            Change::Class { .. } | Change::Part { .. } | Change::Live { .. } => false,
        };
        if high {
            return true;
        }
    }
    false
}
