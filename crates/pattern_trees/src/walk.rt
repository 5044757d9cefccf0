// One walk through a tree of stand-ins that makes its pattern.
ghost use Rattle.std.specs.Prelude.{◌≡◌, ◌<◌, List, length, IfOk};
ghost use Rattle.rb_base.specs.Names.{name_at};
ghost use Rattle.std.specs.List.{AllByRecursion};
ghost use Rattle.tree_model.specs.Tree.{send, cascade, assign, block, brace, return, trees_of, map_names};
ghost use Rattle.tree_model.specs.AllNames.{AllNames, TreesNames, MessagesNames, StatementsNames};
ghost use Rattle.st_tree.specs.View.{messages_of, statements_of};
ghost use Rattle.grammar_model.specs.Terminal.{Text};
ghost use Rattle.pattern_model.specs.Patterns.{literal_like};
ghost use Rattle.pattern_model.specs.Named.{map_pattern};
ghost use Rattle.pattern_model.specs.Spelled as model;
ghost use Rattle.patterns.specs.View.{patterns_of, messages_from};
ghost use Rattle.patterns.specs.Names.{PatternNames};
ghost use Rattle.event_trees.specs.Naming.{Grows};
ghost use Rattle.pattern_trees.specs.Reading.{IsPattern, ArePatterns, IsMessage, AreMessages, IsSequence};

use crate::metas::{operand_pattern, selector_pattern};
use patterns::{
    Pattern, PatternKind, PatternMessage, PatternSelector, PatternSequence, PatternStatement,
};
use rb_base::{Ids, Memory, NameId, Names};
use st_tree::{Literal, Message, Node, NodeKind, Sequence};
use std::alloc::Global;

/// The pattern of a node.
#[cycle(pattern)]
fn node_pattern(alloc: Global, names: &mut Names, node: &Node) -> Result<Pattern, Memory>
    requires { AllNames (λ n. n < length names.old) node.now }
    ensures read { IfOk result (λ p. (final : List Text) → Grows names.new final → IsPattern final node.now p) }
    ensures grows { Grows names.old names.new }
{
    match &node.kind {
        NodeKind::Var { name } => operand_pattern(alloc, names, *name),
        NodeKind::Literal { value } => literal_pattern(alloc, value),
        NodeKind::Send {
            receiver,
            selector,
            arguments,
        } => send_pattern(alloc, names, receiver, *selector, arguments.as_slice()),
        NodeKind::Cascade { receiver, messages } => {
            cascade_pattern(alloc, names, receiver, messages.as_slice())
        }
        NodeKind::Assign { name, value } => assignment_pattern(alloc, names, *name, value),
        NodeKind::Block { parameters, body } => block_pattern(alloc, names, parameters, body),
        NodeKind::Brace { items } => brace_pattern(alloc, names, items.as_slice()),
        NodeKind::Return { value } => return_pattern(alloc, names, value),
    }
}

/// The pattern of a literal.
fn literal_pattern(alloc: Global, value: &Literal) -> Result<Pattern, Memory>
    ensures { IfOk result (λ p. p ≡ literal_like value.now) }
{
    let value = value.try_copy(alloc)?;
    Ok(Pattern {
        kind: PatternKind::Literal { value },
    })
}

/// The pattern of a message and its receiver.
#[cycle(pattern)]
fn send_pattern(
    alloc: Global,
    names: &mut Names,
    receiver: &Node,
    selector: NameId,
    arguments: &[Node],
) -> Result<Pattern, Memory>
    requires receiver { AllNames (λ n. n < length names.old) receiver.now }
    requires selector { selector < length names.old }
    requires arguments { TreesNames (λ n. n < length names.old) (trees_of arguments.now) }
    ensures read { IfOk result (λ p. (final : List Text) → Grows names.new final → IsPattern final (send receiver.now selector (trees_of arguments.now)) p) }
    ensures grows { Grows names.old names.new }
{
    let receiver = boxed_pattern(alloc, names, receiver)?;
    let message = message_pattern(alloc, names, selector, arguments)?;
    Ok(Pattern {
        kind: PatternKind::Send { receiver, message },
    })
}

/// The pattern of messages and their receiver.
#[cycle(pattern)]
fn cascade_pattern(
    alloc: Global,
    names: &mut Names,
    receiver: &Node,
    messages: &[Message],
) -> Result<Pattern, Memory>
    requires receiver { AllNames (λ n. n < length names.old) receiver.now }
    requires messages { MessagesNames (λ n. n < length names.old) (messages_of messages.now) }
    ensures read { IfOk result (λ p. (final : List Text) → Grows names.new final → IsPattern final (cascade receiver.now (messages_of messages.now)) p) }
    ensures grows { Grows names.old names.new }
{
    let receiver = boxed_pattern(alloc, names, receiver)?;
    let messages = message_patterns(alloc, names, messages)?;
    Ok(Pattern {
        kind: PatternKind::Cascade { receiver, messages },
    })
}

/// The pattern of an assignment.
#[cycle(pattern)]
fn assignment_pattern(
    alloc: Global,
    names: &mut Names,
    name: NameId,
    value: &Node,
) -> Result<Pattern, Memory>
    requires name { name < length names.old }
    requires value { AllNames (λ n. n < length names.old) value.now }
    ensures read { IfOk result (λ p. (final : List Text) → Grows names.new final → IsPattern final (assign name value.now) p) }
    ensures grows { Grows names.old names.new }
{
    let value = boxed_pattern(alloc, names, value)?;
    Ok(Pattern {
        kind: PatternKind::Assign { name, value },
    })
}

/// The pattern of a block.
#[cycle(pattern)]
fn block_pattern(
    alloc: Global,
    names: &mut Names,
    parameters: &Ids,
    body: &Sequence,
) -> Result<Pattern, Memory>
    requires parameters { AllByRecursion (λ n. n < length names.old) parameters.now }
    requires temporaries { AllByRecursion (λ n. n < length names.old) body.now.temporaries }
    requires statements { StatementsNames (λ n. n < length names.old) (statements_of body.now.statements) }
    ensures read { IfOk result (λ p. (final : List Text) → Grows names.new final → IsPattern final (block parameters.now body.now.temporaries (statements_of body.now.statements) body.now.tail) p) }
    ensures grows { Grows names.old names.new }
{
    let sequence = sequence_pattern(alloc, names, body)?;
    let body = Box::new(alloc, sequence)?;
    let parameters = parameters.try_copy(alloc)?;
    Ok(Pattern {
        kind: PatternKind::Block { parameters, body },
    })
}

/// The pattern of an array that is made of the values of expressions.
#[cycle(pattern)]
fn brace_pattern(alloc: Global, names: &mut Names, nodes: &[Node]) -> Result<Pattern, Memory>
    requires { TreesNames (λ n. n < length names.old) (trees_of nodes.now) }
    ensures read { IfOk result (λ p. (final : List Text) → Grows names.new final → IsPattern final (brace (trees_of nodes.now)) p) }
    ensures grows { Grows names.old names.new }
{
    let items = node_patterns(alloc, names, nodes)?;
    Ok(Pattern {
        kind: PatternKind::Brace { items },
    })
}

/// The pattern of a return.
#[cycle(pattern)]
fn return_pattern(alloc: Global, names: &mut Names, value: &Node) -> Result<Pattern, Memory>
    requires { AllNames (λ n. n < length names.old) value.now }
    ensures read { IfOk result (λ p. (final : List Text) → Grows names.new final → IsPattern final (return value.now) p) }
    ensures grows { Grows names.old names.new }
{
    let value = boxed_pattern(alloc, names, value)?;
    Ok(Pattern {
        kind: PatternKind::Return { value },
    })
}

/// The pattern of a node, in memory of its own.
#[cycle(pattern)]
fn boxed_pattern(alloc: Global, names: &mut Names, node: &Node) -> Result<Box<Pattern>, Memory>
    requires { AllNames (λ n. n < length names.old) node.now }
    ensures read { IfOk result (λ p. (final : List Text) → Grows names.new final → IsPattern final node.now p.value) }
    ensures grows { Grows names.old names.new }
{
    let pattern = node_pattern(alloc, names, node)?;
    Ok(Box::new(alloc, pattern)?)
}

/// The patterns of nodes.
#[cycle(pattern)]
fn node_patterns(alloc: Global, names: &mut Names, nodes: &[Node]) -> Result<Vec<Pattern>, Memory>
    requires { TreesNames (λ n. n < length names.old) (trees_of nodes.now) }
    ensures read { IfOk result (λ ps. (final : List Text) → Grows names.new final → ArePatterns final (trees_of nodes.now) (patterns_of ps.items)) }
    ensures grows { Grows names.old names.new }
{
    let mut patterns = Vec::new(alloc);
    for node in nodes {
        let pattern = node_pattern(alloc, names, node)?;
        patterns.push(pattern)?;
    }
    Ok(patterns)
}

/// The pattern of a message.
#[cycle(pattern)]
fn message_pattern(
    alloc: Global,
    names: &mut Names,
    selector: NameId,
    arguments: &[Node],
) -> Result<PatternMessage, Memory>
    requires selector { selector < length names.old }
    requires arguments { TreesNames (λ n. n < length names.old) (trees_of arguments.now) }
    ensures read { IfOk result (λ m. (final : List Text) → Grows names.new final → IsMessage final selector (trees_of arguments.now) m) }
    ensures grows { Grows names.old names.new }
{
    let selector = selector_pattern(alloc, names, selector)?;
    if matches!(selector, PatternSelector::Whole(_)) {
        return Ok(PatternMessage {
            selector,
            arguments: Vec::new(alloc),
        });
    }
    let arguments = node_patterns(alloc, names, arguments)?;
    Ok(PatternMessage {
        selector,
        arguments,
    })
}

/// The patterns of messages.
#[cycle(pattern)]
fn message_patterns(
    alloc: Global,
    names: &mut Names,
    messages: &[Message],
) -> Result<Vec<PatternMessage>, Memory>
    requires { MessagesNames (λ n. n < length names.old) (messages_of messages.now) }
    ensures read { IfOk result (λ ms. (final : List Text) → Grows names.new final → AreMessages final (messages_of messages.now) (messages_from ms.items)) }
    ensures grows { Grows names.old names.new }
{
    let mut patterns = Vec::new(alloc);
    for message in messages {
        let arguments = message.arguments.as_slice();
        let pattern = message_pattern(alloc, names, message.selector, arguments)?;
        patterns.push(pattern)?;
    }
    Ok(patterns)
}

/// The pattern of the body of a block.
#[cycle(pattern)]
fn sequence_pattern(
    alloc: Global,
    names: &mut Names,
    body: &Sequence,
) -> Result<PatternSequence, Memory>
    requires { StatementsNames (λ n. n < length names.old) (statements_of body.now.statements) }
    ensures read { IfOk result (λ found. (final : List Text) → Grows names.new final → IsSequence final body.now found) }
    ensures grows { Grows names.old names.new }
{
    let mut statements = Vec::new(alloc);
    for statement in body.statements.as_slice() {
        let comments = statement.comments.try_copy(alloc)?;
        let node = node_pattern(alloc, names, &statement.node)?;
        statements.push(PatternStatement { comments, node })?;
    }
    let temporaries = body.temporaries.try_copy(alloc)?;
    let tail = body.tail.try_copy(alloc)?;
    Ok(PatternSequence {
        temporaries,
        statements,
        tail,
    })
}

/// The pattern of a tree in which metavariables stand as names, selectors and keywords, spelled with their backquotes and
/// marks, as `parse_pattern` of st_parser reads it. The names behind the marks get numbers in `names`; on want of memory
/// some may have been added.
pub fn pattern_of(alloc: Global, tree: &Node, names: &mut Names) -> Result<Pattern, Memory>
    requires { AllNames (λ n. n < length names.old) tree.now }
    ensures pattern { IfOk result (λ p. map_pattern (name_at names.new) p ≡ model.pattern_of (map_names (name_at names.old) tree.now)) }
    ensures known { IfOk result (λ p. PatternNames (λ n. n < length names.new) p) }
    ensures grows { Grows names.old names.new }
{
    node_pattern(alloc, names, tree)
}
