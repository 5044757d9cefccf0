// A pattern as a tree in which names stand for metavariables.
ghost use Rattle.std.specs.Prelude.{◌≡◌, map, position, IfOk};
ghost use Rattle.tree_model.specs.Tree.{var, literal, cascade, block};
ghost use Rattle.st_tree.specs.View.{messages_of, statements_of};
ghost use Rattle.patterns.specs.View.{selector_of};
ghost use Rattle.derivations.specs.Signs.{sign_of, same_sign};
ghost use Rattle.derivations.specs.Numbered.{table_of, number_of, selector_number, numbered, message_in, statement_in, sent};

use crate::marks::{Mark, copied_selector, is_same_mark};
use patterns::{
    Pattern, PatternKind, PatternMessage, PatternSelector, PatternSequence, PatternStatement,
};
use rb_base::{Ids, Memory, NameId};
use st_tree::{Literal, Message, Messages, Node, NodeKind, Nodes, Sequence, Statement, Statements};
use std::alloc::Global;

/// The marks of a rule, each once, and the first of their names, which go up by one.
#[derive(Drop)]
pub(crate) struct Marks {
    pub(crate) first: usize,
    pub(crate) items: Vec<Mark>,
}

/// The place of a mark.
pub(crate) fn place_of(marks: &[Mark], mark: &Mark) -> Option<usize>
    ensures { result ≡ position (λ x. same_sign (sign_of x) (sign_of mark.now)) marks.now }
{
    marks.iter().position(|other| is_same_mark(other, mark))
}

/// The name that stands for a mark; an error if it has none.
fn number_of(marks: &Marks, mark: &Mark) -> Result<NameId, Memory>
    ensures { IfOk result (λ name. name ≡ number_of (table_of marks.now) (sign_of mark.now)) }
{
    match place_of(&marks.items, mark) {
        None => Err(Memory),
        Some(at) => {
            let number = marks.first.checked_add(at).ok_or(Memory)?;
            Ok(NameId(number))
        }
    }
}

/// The name that stands for a selector; one that is spelled out stands for itself.
fn name_of_selector(
    alloc: Global,
    marks: &Marks,
    selector: &PatternSelector,
) -> Result<NameId, Memory>
    ensures { IfOk result (λ name. name ≡ selector_number (table_of marks.now) (selector_of selector.now)) }
{
    if let PatternSelector::Plain(name) = selector {
        return Ok(*name);
    }
    let copied = copied_selector(alloc, selector)?;
    number_of(marks, &Mark::Selector(copied))
}

/// A variable.
fn variable(name: NameId) -> Node
    ensures { result ≡ var name }
{
    Node {
        kind: NodeKind::Var { name },
    }
}

/// A copy of a literal.
fn copied_literal(alloc: Global, value: &Literal) -> Result<Node, Memory>
    ensures { IfOk result (λ node. node ≡ literal value.now) }
{
    let value = value.try_copy(alloc)?;
    Ok(Node {
        kind: NodeKind::Literal { value },
    })
}

/// The tree of a pattern.
#[cycle(marking)]
#[tactic(auto, using(patterns::proofs::Weights::weight_rules))]
pub(crate) fn marked_node(alloc: Global, marks: &Marks, pattern: &Pattern) -> Result<Node, Memory>
    ensures { IfOk result (λ node. node ≡ numbered (table_of marks.now) pattern.now) }
{
    match &pattern.kind {
        PatternKind::Meta { meta } => {
            let name = number_of(marks, &Mark::Node(*meta))?;
            Ok(variable(name))
        }
        PatternKind::Var { name } => Ok(variable(*name)),
        PatternKind::Literal { value } => copied_literal(alloc, value),
        PatternKind::Send { receiver, message } => marked_send(alloc, marks, receiver, message),
        PatternKind::Cascade { receiver, messages } => {
            marked_cascade(alloc, marks, receiver, messages.as_slice())
        }
        PatternKind::Assign { name, value } => {
            let value = boxed_node(alloc, marks, value)?;
            Ok(Node {
                kind: NodeKind::Assign { name: *name, value },
            })
        }
        PatternKind::Block { parameters, body } => marked_block(alloc, marks, parameters, body),
        PatternKind::Brace { items } => {
            let items = marked_nodes(alloc, marks, items.as_slice())?;
            Ok(Node {
                kind: NodeKind::Brace { items },
            })
        }
        PatternKind::Return { value } => {
            let value = boxed_node(alloc, marks, value)?;
            Ok(Node {
                kind: NodeKind::Return { value },
            })
        }
    }
}

/// The tree of a pattern, in memory of its own.
#[cycle(marking)]
#[tactic(auto, using(patterns::proofs::Weights::weight_rules))]
fn boxed_node(alloc: Global, marks: &Marks, pattern: &Pattern) -> Result<Box<Node>, Memory>
    ensures { IfOk result (λ node. node.value ≡ numbered (table_of marks.now) pattern.now) }
{
    let node = marked_node(alloc, marks, pattern)?;
    let boxed = Box::new(alloc, node)?;
    Ok(boxed)
}

/// The tree of a message and its receiver.
#[cycle(marking)]
#[tactic(auto, using(patterns::proofs::Weights::weight_rules))]
fn marked_send(
    alloc: Global,
    marks: &Marks,
    receiver: &Pattern,
    message: &PatternMessage,
) -> Result<Node, Memory>
    ensures { IfOk result (λ node. node ≡ sent (numbered (table_of marks.now) receiver.now) (message_in (table_of marks.now) message.now)) }
{
    let receiver = boxed_node(alloc, marks, receiver)?;
    let Message {
        selector,
        arguments,
    } = marked_message(alloc, marks, message)?;
    Ok(Node {
        kind: NodeKind::Send {
            receiver,
            selector,
            arguments,
        },
    })
}

/// The tree of messages and their receiver.
#[cycle(marking)]
#[tactic(auto, using(patterns::proofs::Weights::weight_rules))]
fn marked_cascade(
    alloc: Global,
    marks: &Marks,
    receiver: &Pattern,
    messages: &[PatternMessage],
) -> Result<Node, Memory>
    ensures { IfOk result (λ node. node ≡ cascade (numbered (table_of marks.now) receiver.now) (messages_of (map (message_in (table_of marks.now)) messages.now))) }
{
    let receiver = boxed_node(alloc, marks, receiver)?;
    let messages = marked_messages(alloc, marks, messages)?;
    Ok(Node {
        kind: NodeKind::Cascade { receiver, messages },
    })
}

/// The tree of a block.
#[cycle(marking)]
#[tactic(auto, using(patterns::proofs::Weights::weight_rules))]
fn marked_block(
    alloc: Global,
    marks: &Marks,
    parameters: &Ids,
    body: &PatternSequence,
) -> Result<Node, Memory>
    ensures { IfOk result (λ node. node ≡ block parameters.now body.now.temporaries (statements_of (map (statement_in (table_of marks.now)) body.now.statements.items)) body.now.tail) }
{
    let statements = marked_statements(alloc, marks, body.statements.as_slice())?;
    let sequence = Sequence {
        temporaries: body.temporaries.try_copy(alloc)?,
        statements,
        tail: body.tail.try_copy(alloc)?,
    };
    let body = Box::new(alloc, sequence)?;
    let parameters = parameters.try_copy(alloc)?;
    Ok(Node {
        kind: NodeKind::Block { parameters, body },
    })
}

/// The trees of patterns.
#[cycle(marking)]
#[tactic(auto, using(patterns::proofs::Weights::weight_rules))]
fn marked_nodes(alloc: Global, marks: &Marks, patterns: &[Pattern]) -> Result<Nodes, Memory>
    ensures { IfOk result (λ nodes. nodes ≡ map (numbered (table_of marks.now)) patterns.now) }
{
    let mut nodes = Vec::new(alloc);
    for pattern in patterns {
        let node = marked_node(alloc, marks, pattern)?;
        nodes.push(node)?;
    }
    Ok(Nodes::from_vec(nodes))
}

/// The message of a pattern.
#[cycle(marking)]
#[tactic(auto, using(patterns::proofs::Weights::weight_rules))]
fn marked_message(alloc: Global, marks: &Marks, message: &PatternMessage) -> Result<Message, Memory>
    ensures { IfOk result (λ made. made ≡ message_in (table_of marks.now) message.now) }
{
    let selector = name_of_selector(alloc, marks, &message.selector)?;
    let arguments = marked_nodes(alloc, marks, message.arguments.as_slice())?;
    Ok(Message {
        selector,
        arguments,
    })
}

/// The messages of patterns.
#[cycle(marking)]
#[tactic(auto, using(patterns::proofs::Weights::weight_rules))]
fn marked_messages(
    alloc: Global,
    marks: &Marks,
    patterns: &[PatternMessage],
) -> Result<Messages, Memory>
    ensures { IfOk result (λ messages. messages ≡ map (message_in (table_of marks.now)) patterns.now) }
{
    let mut messages = Vec::new(alloc);
    for pattern in patterns {
        let message = marked_message(alloc, marks, pattern)?;
        messages.push(message)?;
    }
    Ok(Messages::from_vec(messages))
}

/// The statements of patterns.
#[cycle(marking)]
#[tactic(auto, using(patterns::proofs::Weights::weight_rules))]
fn marked_statements(
    alloc: Global,
    marks: &Marks,
    patterns: &[PatternStatement],
) -> Result<Statements, Memory>
    ensures { IfOk result (λ made. made ≡ map (statement_in (table_of marks.now)) patterns.now) }
{
    let mut statements = Vec::new(alloc);
    for pattern in patterns {
        let comments = pattern.comments.try_copy(alloc)?;
        let node = marked_node(alloc, marks, &pattern.node)?;
        statements.push(Statement { comments, node })?;
    }
    Ok(Statements::from_vec(statements))
}
