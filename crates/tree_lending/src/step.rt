// One step down a tree, lent. A part that is always there is lent as an option too, since the checker proves a loan of
// a part of a loan where `?` takes the first one.
ghost use Rattle.std.specs.Prelude.{◌≡◌, ◌<◌, length, Some, option_map, IfNone, IfSome};
ghost use Rattle.std.specs.Option.{option_copied_mut};
ghost use Rattle.std.specs.Borrow.{sem};
ghost use Rattle.tree_model.specs.Path.{nth, all_arguments, statement_trees, child};
ghost use Rattle.st_tree.specs.View.{tree_of, messages_of, statements_of};
ghost use Rattle.st_tree.specs.Replaced.{IsPlace};
ghost use Rattle.tree_lending.specs.Kinds.{first, arguments_of, cascaded_of, items_of, body_of, is_cascade, is_brace, is_block, send_child, cascade_child, brace_child, block_child};
ghost use Rattle.tree_lending.specs.Steps.{LendsArguments, LendsArgument, LendsNodeOf, LendsStatement, LendsStatements, LendsStatementNode, LendsFirst, LendsSendArguments, LendsCascaded, LendsItems, LendsBody, LendsSendChild, LendsCascadeChild, LendsBraceChild, LendsBlockChild, LendsChild, LendsKind};

use st_tree::{Message, Messages, Node, NodeKind, Nodes, Sequence, Statement, Statements};

/// The message that has the argument of a number, counted through all messages, and which of its arguments it is.
fn place(messages: &[Message], at: usize) -> Option<(usize, usize)>
    ensures none { IfNone result (nth (all_arguments (messages_of messages.now)) at ≡ None) }
    ensures some { IfSome result (λ p. IsPlace messages.now at p.0 p.1) }
    ensures within { IfSome result (λ p. p.0 < length messages.now) }
{
    let mut left = at;
    for (i, message) in messages.iter().enumerate() {
        let count = message.arguments.len();
        if left < count {
            return Some((i, left));
        }
        left -= count;
    }
    None
}

/// The arguments of a message.
fn message_arguments_mut(message: &mut Message) -> Option<&mut Nodes>
    ensures* writes_back { sem 𝓛 (LendsArguments message.entry result) }
    ensures value { option_map (λ a. a.now) result ≡ Some message.old.arguments }
{
    Some(&mut message.arguments)
}

/// The argument of a number, counted through all messages.
fn argument_mut(messages: &mut Messages, at: usize) -> Option<&mut Node>
    ensures* writes_back { sem 𝓛 (LendsArgument messages.entry at result) }
    ensures value { option_copied_mut result ≡ nth (all_arguments (messages_of messages.old)) at }
{
    let (message, argument) = place(messages.as_slice(), at)?;
    message_arguments_mut(messages.get_mut(message)?)?.get_mut(argument)
}

/// The node of a statement.
fn node_of_mut(statement: &mut Statement) -> Option<&mut Node>
    ensures* writes_back { sem 𝓛 (LendsNodeOf statement.entry result) }
    ensures value { option_copied_mut result ≡ Some statement.old.node }
{
    Some(&mut statement.node)
}

/// The node of the statement of a number.
fn node_mut(statements: &mut Statements, at: usize) -> Option<&mut Node>
    ensures* writes_back { sem 𝓛 (LendsStatement statements.entry at result) }
    ensures value { option_copied_mut result ≡ nth (statement_trees (statements_of statements.old)) at }
{
    node_of_mut(statements.get_mut(at)?)
}

/// The statements of a sequence.
fn statements_mut(body: &mut Sequence) -> Option<&mut Statements>
    ensures* writes_back { sem 𝓛 (LendsStatements body.entry result) }
    ensures value { option_map (λ a. a.now) result ≡ Some body.old.statements }
{
    Some(&mut body.statements)
}

/// The node of the statement of a number of a sequence.
pub(crate) fn statement_mut(body: &mut Sequence, at: usize) -> Option<&mut Node>
    ensures* writes_back { sem 𝓛 (LendsStatementNode body.entry at result) }
    ensures value { option_copied_mut result ≡ nth (statement_trees (statements_of body.old.statements)) at }
{
    node_mut(statements_mut(body)?, at)
}

/// The receiver of a send or a cascade, or the value of an assignment or a return.
fn first_mut(kind: &mut NodeKind) -> Option<&mut Node>
    ensures* writes_back { sem 𝓛 (LendsFirst kind.entry result) }
    ensures value { option_copied_mut result ≡ first kind.old }
{
    match kind {
        NodeKind::Send { receiver, .. } => Some(receiver),
        NodeKind::Cascade { receiver, .. } => Some(receiver),
        NodeKind::Assign { value, .. } => Some(value),
        NodeKind::Return { value } => Some(value),
        _ => None,
    }
}

/// The arguments of a send.
fn arguments_mut(kind: &mut NodeKind) -> Option<&mut Nodes>
    ensures* writes_back { sem 𝓛 (LendsSendArguments kind.entry result) }
    ensures value { option_map (λ a. a.now) result ≡ arguments_of kind.old }
{
    if let NodeKind::Send { arguments, .. } = kind {
        Some(arguments)
    } else {
        None
    }
}

/// The messages of a cascade.
fn messages_mut(kind: &mut NodeKind) -> Option<&mut Messages>
    ensures* writes_back { sem 𝓛 (LendsCascaded kind.entry result) }
    ensures value { option_map (λ a. a.now) result ≡ cascaded_of kind.old }
{
    if let NodeKind::Cascade { messages, .. } = kind {
        Some(messages)
    } else {
        None
    }
}

/// The items of a brace array.
fn items_mut(kind: &mut NodeKind) -> Option<&mut Nodes>
    ensures* writes_back { sem 𝓛 (LendsItems kind.entry result) }
    ensures value { option_map (λ a. a.now) result ≡ items_of kind.old }
{
    if let NodeKind::Brace { items } = kind {
        Some(items)
    } else {
        None
    }
}

/// The body of a block.
fn body_mut(kind: &mut NodeKind) -> Option<&mut Sequence>
    ensures* writes_back { sem 𝓛 (LendsBody kind.entry result) }
    ensures value { option_map (λ a. a.now) result ≡ body_of kind.old }
{
    if let NodeKind::Block { body, .. } = kind {
        Some(body)
    } else {
        None
    }
}

/// Whether the node is a cascade.
fn is_cascade(kind: &NodeKind) -> bool
    ensures { result ≡ is_cascade kind.now }
{
    matches!(kind, NodeKind::Cascade { .. })
}

/// Whether the node is a brace array.
fn is_brace(kind: &NodeKind) -> bool
    ensures { result ≡ is_brace kind.now }
{
    matches!(kind, NodeKind::Brace { .. })
}

/// Whether the node is a block.
fn is_block(kind: &NodeKind) -> bool
    ensures { result ≡ is_block kind.now }
{
    matches!(kind, NodeKind::Block { .. })
}

/// The argument of a number of a send.
fn send_child_mut(kind: &mut NodeKind, at: usize) -> Option<&mut Node>
    ensures* writes_back { sem 𝓛 (LendsSendChild kind.entry at result) }
    ensures value { option_copied_mut result ≡ send_child kind.old at }
{
    arguments_mut(kind)?.get_mut(at)
}

/// The argument of a number of a cascade, counted through all messages.
fn cascade_child_mut(kind: &mut NodeKind, at: usize) -> Option<&mut Node>
    ensures* writes_back { sem 𝓛 (LendsCascadeChild kind.entry at result) }
    ensures value { option_copied_mut result ≡ cascade_child kind.old at }
{
    argument_mut(messages_mut(kind)?, at)
}

/// The item of a number of a brace array.
fn brace_child_mut(kind: &mut NodeKind, at: usize) -> Option<&mut Node>
    ensures* writes_back { sem 𝓛 (LendsBraceChild kind.entry at result) }
    ensures value { option_copied_mut result ≡ brace_child kind.old at }
{
    items_mut(kind)?.get_mut(at)
}

/// The node of the statement of a number of a block.
fn block_child_mut(kind: &mut NodeKind, at: usize) -> Option<&mut Node>
    ensures* writes_back { sem 𝓛 (LendsBlockChild kind.entry at result) }
    ensures value { option_copied_mut result ≡ block_child kind.old at }
{
    statement_mut(body_mut(kind)?, at)
}

/// Where one step leads; None where it leads nowhere.
pub(crate) fn child_mut(kind: &mut NodeKind, step: usize) -> Option<&mut Node>
    ensures* writes_back { sem 𝓛 (LendsChild kind.entry step result) }
    ensures value { option_copied_mut result ≡ child (tree_of kind.old) step }
{
    if is_block(kind) {
        return block_child_mut(kind, step);
    }
    if is_brace(kind) {
        return brace_child_mut(kind, step);
    }
    if step == 0 {
        return first_mut(kind);
    }
    if is_cascade(kind) {
        return cascade_child_mut(kind, step - 1);
    }
    send_child_mut(kind, step - 1)
}

/// What the node is.
pub(crate) fn kind_mut(node: &mut Node) -> Option<&mut NodeKind>
    ensures* writes_back { sem 𝓛 (LendsKind node.entry result) }
    ensures value { option_map (λ k. tree_of k.now) result ≡ Some node.old }
{
    Some(&mut node.kind)
}
