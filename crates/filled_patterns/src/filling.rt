// One walk through a pattern that makes the code.
ghost use Rattle.std.specs.Prelude.{◌≡◌, ◌<◌, ℕ, List, length, map, IfOk};
ghost use Rattle.std.specs.List.{AllByRecursion, concat};
ghost use Rattle.rb_base.specs.Names.{name_at, text_eq};
ghost use Rattle.tree_model.specs.Tree.{literal, map_names, trees_of};
ghost use Rattle.tree_model.specs.AllNames.{AllNames};
ghost use Rattle.st_tree.specs.View.{messages_of, statements_of};
ghost use Rattle.event_trees.specs.Naming.{Grows};
ghost use Rattle.pattern_model.specs.Patterns.{send_like, cascade_like, assign_like, block_like, brace_like, return_like};
ghost use Rattle.pattern_model.specs.Fill.{fill};
ghost use Rattle.pattern_model.specs.Named.{map_pattern, map_binding};
ghost use Rattle.patterns.specs.View.{selector_of, patterns_of, messages_from, statements_from};
ghost use Rattle.patterns.specs.Names.{PatternNames, SelectorNames, PatternsNames, MessagesLikeNames, StatementsLikeNames};
ghost use Rattle.filled_patterns.specs.Left.{Leaves};
ghost use Rattle.filled_patterns.specs.Filling.{Later, Over, state_of, IsFilled, AreFilled, IsMessageFilled, AreMessagesFilled, IsPut, IsSequenceFilled};

use crate::bindings::Binding;
use crate::sequences::{Made, noted, put_all, put_one};
use crate::standing::{arguments_for, filled_selector, part_for, run_for};
use pattern_match::list_meta;
use patterns::{
    Pattern, PatternKind, PatternMessage, PatternSelector, PatternSequence, PatternStatement,
};
use rb_base::{Ids, Memory, NameId, Names};
use st_tree::{Comments, Literal, Message, Messages, Node, NodeKind, Nodes, Sequence, Statements};
use std::alloc::Global;

/// The node of a pattern.
#[cycle(filling)]
#[tactic(auto, using(crate::proofs::Growing::grow_rules))]
fn filled_node(
    alloc: Global,
    names: &mut Names,
    bindings: &mut [Binding],
    pattern: &Pattern,
) -> Result<Node, Memory>
    requires pattern { PatternNames (λ n. n < length names.old) pattern.now }
    ensures filled { IfOk result (λ node. (final : List (List ℕ)) → Later names.new final → Over final bindings.old (λ bs. IsFilled final bs pattern.now node)) }
    ensures left { Leaves bindings.old bindings.new }
    ensures grows { Grows names.old names.new }
{
    match &pattern.kind {
        PatternKind::Meta { meta } => part_for(alloc, bindings, meta),
        PatternKind::Var { name } => Ok(Node {
            kind: NodeKind::Var { name: *name },
        }),
        PatternKind::Literal { value } => filled_literal(alloc, value),
        PatternKind::Send { receiver, message } => {
            filled_send(alloc, names, bindings, receiver, message)
        }
        PatternKind::Cascade { receiver, messages } => {
            filled_cascade(alloc, names, bindings, receiver, messages.as_slice())
        }
        PatternKind::Assign { name, value } => {
            filled_assignment(alloc, names, bindings, *name, value)
        }
        PatternKind::Block { parameters, body } => {
            filled_block(alloc, names, bindings, parameters, body)
        }
        PatternKind::Brace { items } => filled_brace(alloc, names, bindings, items.as_slice()),
        PatternKind::Return { value } => filled_return(alloc, names, bindings, value),
    }
}

/// The node of a literal.
fn filled_literal(alloc: Global, value: &Literal) -> Result<Node, Memory>
    ensures { IfOk result (λ node. node ≡ literal value.now) }
{
    let value = value.try_copy(alloc)?;
    Ok(Node {
        kind: NodeKind::Literal { value },
    })
}

/// The node of a pattern, in memory of its own.
#[cycle(filling)]
#[tactic(auto, using(crate::proofs::Growing::grow_rules))]
fn boxed_node(
    alloc: Global,
    names: &mut Names,
    bindings: &mut [Binding],
    pattern: &Pattern,
) -> Result<Box<Node>, Memory>
    requires pattern { PatternNames (λ n. n < length names.old) pattern.now }
    ensures filled { IfOk result (λ node. (final : List (List ℕ)) → Later names.new final → Over final bindings.old (λ bs. IsFilled final bs pattern.now node.value)) }
    ensures left { Leaves bindings.old bindings.new }
    ensures grows { Grows names.old names.new }
{
    let node = filled_node(alloc, names, bindings, pattern)?;
    Ok(Box::new(alloc, node)?)
}

/// A message to its receiver.
#[cycle(filling)]
#[tactic(auto, using(crate::proofs::Growing::grow_rules))]
fn filled_send(
    alloc: Global,
    names: &mut Names,
    bindings: &mut [Binding],
    receiver: &Pattern,
    message: &PatternMessage,
) -> Result<Node, Memory>
    requires receiver { PatternNames (λ n. n < length names.old) receiver.now }
    requires selector { SelectorNames (λ n. n < length names.old) (selector_of message.now.selector) }
    requires arguments { PatternsNames (λ n. n < length names.old) (patterns_of message.now.arguments.items) }
    ensures filled { IfOk result (λ node. (final : List (List ℕ)) → Later names.new final → Over final bindings.old (λ bs. IsFilled final bs (send_like receiver.now (selector_of message.now.selector) (patterns_of message.now.arguments.items)) node)) }
    ensures left { Leaves bindings.old bindings.new }
    ensures grows { Grows names.old names.new }
{
    let receiver = boxed_node(alloc, names, bindings, receiver)?;
    let made = filled_message(alloc, names, bindings, message)?;
    Ok(Node {
        kind: NodeKind::Send {
            receiver,
            selector: made.selector,
            arguments: made.arguments,
        },
    })
}

/// Messages to their receiver.
#[cycle(filling)]
#[tactic(auto, using(crate::proofs::Growing::grow_rules))]
fn filled_cascade(
    alloc: Global,
    names: &mut Names,
    bindings: &mut [Binding],
    receiver: &Pattern,
    messages: &[PatternMessage],
) -> Result<Node, Memory>
    requires receiver { PatternNames (λ n. n < length names.old) receiver.now }
    requires messages { MessagesLikeNames (λ n. n < length names.old) (messages_from messages.now) }
    ensures filled { IfOk result (λ node. (final : List (List ℕ)) → Later names.new final → Over final bindings.old (λ bs. IsFilled final bs (cascade_like receiver.now (messages_from messages.now)) node)) }
    ensures left { Leaves bindings.old bindings.new }
    ensures grows { Grows names.old names.new }
{
    let receiver = boxed_node(alloc, names, bindings, receiver)?;
    let messages = filled_messages(alloc, names, bindings, messages)?;
    Ok(Node {
        kind: NodeKind::Cascade { receiver, messages },
    })
}

/// An assignment.
#[cycle(filling)]
#[tactic(auto, using(crate::proofs::Growing::grow_rules))]
fn filled_assignment(
    alloc: Global,
    names: &mut Names,
    bindings: &mut [Binding],
    name: NameId,
    value: &Pattern,
) -> Result<Node, Memory>
    requires name { name < length names.old }
    requires value { PatternNames (λ n. n < length names.old) value.now }
    ensures filled { IfOk result (λ node. (final : List (List ℕ)) → Later names.new final → Over final bindings.old (λ bs. IsFilled final bs (assign_like name value.now) node)) }
    ensures left { Leaves bindings.old bindings.new }
    ensures grows { Grows names.old names.new }
{
    let value = boxed_node(alloc, names, bindings, value)?;
    Ok(Node {
        kind: NodeKind::Assign { name, value },
    })
}

/// A block.
#[cycle(filling)]
#[tactic(auto, using(crate::proofs::Growing::grow_rules))]
fn filled_block(
    alloc: Global,
    names: &mut Names,
    bindings: &mut [Binding],
    parameters: &Ids,
    body: &PatternSequence,
) -> Result<Node, Memory>
    requires parameters { AllByRecursion (λ n. n < length names.old) parameters.now }
    requires temporaries { AllByRecursion (λ n. n < length names.old) body.now.temporaries }
    requires statements { StatementsLikeNames (λ n. n < length names.old) (statements_from body.now.statements.items) }
    ensures filled { IfOk result (λ node. (final : List (List ℕ)) → Later names.new final → Over final bindings.old (λ bs. IsFilled final bs (block_like parameters.now body.now.temporaries (statements_from body.now.statements.items) body.now.tail) node)) }
    ensures left { Leaves bindings.old bindings.new }
    ensures grows { Grows names.old names.new }
{
    let sequence = filled_sequence(alloc, names, bindings, body)?;
    let body = Box::new(alloc, sequence)?;
    let parameters = parameters.try_copy(alloc)?;
    Ok(Node {
        kind: NodeKind::Block { parameters, body },
    })
}

/// An array that is made of the values of expressions.
#[cycle(filling)]
#[tactic(auto, using(crate::proofs::Growing::grow_rules))]
fn filled_brace(
    alloc: Global,
    names: &mut Names,
    bindings: &mut [Binding],
    patterns: &[Pattern],
) -> Result<Node, Memory>
    requires patterns { PatternsNames (λ n. n < length names.old) (patterns_of patterns.now) }
    ensures filled { IfOk result (λ node. (final : List (List ℕ)) → Later names.new final → Over final bindings.old (λ bs. IsFilled final bs (brace_like (patterns_of patterns.now)) node)) }
    ensures left { Leaves bindings.old bindings.new }
    ensures grows { Grows names.old names.new }
{
    let items = filled_nodes(alloc, names, bindings, patterns)?;
    Ok(Node {
        kind: NodeKind::Brace { items },
    })
}

/// A return.
#[cycle(filling)]
#[tactic(auto, using(crate::proofs::Growing::grow_rules))]
fn filled_return(
    alloc: Global,
    names: &mut Names,
    bindings: &mut [Binding],
    value: &Pattern,
) -> Result<Node, Memory>
    requires value { PatternNames (λ n. n < length names.old) value.now }
    ensures filled { IfOk result (λ node. (final : List (List ℕ)) → Later names.new final → Over final bindings.old (λ bs. IsFilled final bs (return_like value.now) node)) }
    ensures left { Leaves bindings.old bindings.new }
    ensures grows { Grows names.old names.new }
{
    let value = boxed_node(alloc, names, bindings, value)?;
    Ok(Node {
        kind: NodeKind::Return { value },
    })
}

/// The nodes of patterns.
#[cycle(filling)]
#[tactic(auto, using(crate::proofs::Growing::grow_rules))]
fn filled_nodes(
    alloc: Global,
    names: &mut Names,
    bindings: &mut [Binding],
    patterns: &[Pattern],
) -> Result<Nodes, Memory>
    requires patterns { PatternsNames (λ n. n < length names.old) (patterns_of patterns.now) }
    ensures filled { IfOk result (λ nodes. (final : List (List ℕ)) → Later names.new final → Over final bindings.old (λ bs. AreFilled final bs (patterns_of patterns.now) (trees_of nodes))) }
    ensures left { Leaves bindings.old bindings.new }
    ensures grows { Grows names.old names.new }
{
    let mut nodes = Vec::new(alloc);
    for pattern in patterns {
        let node = filled_node(alloc, names, bindings, pattern)?;
        nodes.push(node)?;
    }
    Ok(Nodes::from_vec(nodes))
}

/// The message of a pattern.
#[cycle(filling)]
#[tactic(auto, using(crate::proofs::Growing::grow_rules))]
fn filled_message(
    alloc: Global,
    names: &mut Names,
    bindings: &mut [Binding],
    message: &PatternMessage,
) -> Result<Message, Memory>
    requires selector { SelectorNames (λ n. n < length names.old) (selector_of message.now.selector) }
    requires arguments { PatternsNames (λ n. n < length names.old) (patterns_of message.now.arguments.items) }
    ensures filled { IfOk result (λ made. (final : List (List ℕ)) → Later names.new final → Over final bindings.old (λ bs. IsMessageFilled final bs (selector_of message.now.selector) (patterns_of message.now.arguments.items) made.selector (trees_of made.arguments))) }
    ensures left { Leaves bindings.old bindings.new }
    ensures grows { Grows names.old names.new }
{
    let selector = filled_selector(alloc, names, bindings, &message.selector)?;
    match &message.selector {
        PatternSelector::Whole(meta) => {
            let arguments = arguments_for(alloc, bindings, meta)?;
            Ok(Message {
                selector,
                arguments,
            })
        }
        _ => {
            let arguments = filled_nodes(alloc, names, bindings, &message.arguments)?;
            Ok(Message {
                selector,
                arguments,
            })
        }
    }
}

/// The messages of patterns.
#[cycle(filling)]
#[tactic(auto, using(crate::proofs::Growing::grow_rules))]
fn filled_messages(
    alloc: Global,
    names: &mut Names,
    bindings: &mut [Binding],
    patterns: &[PatternMessage],
) -> Result<Messages, Memory>
    requires patterns { MessagesLikeNames (λ n. n < length names.old) (messages_from patterns.now) }
    ensures filled { IfOk result (λ messages. (final : List (List ℕ)) → Later names.new final → Over final bindings.old (λ bs. AreMessagesFilled final bs (messages_from patterns.now) (messages_of messages))) }
    ensures left { Leaves bindings.old bindings.new }
    ensures grows { Grows names.old names.new }
{
    let mut messages = Vec::new(alloc);
    for pattern in patterns {
        let message = filled_message(alloc, names, bindings, pattern)?;
        messages.push(message)?;
    }
    Ok(Messages::from_vec(messages))
}

/// Puts the statement of a pattern behind others, or the statements of a list.
#[cycle(filling)]
#[tactic(auto, using(crate::proofs::Growing::grow_rules))]
fn put_statement(
    alloc: Global,
    names: &mut Names,
    bindings: &mut [Binding],
    statement: &PatternStatement,
    made: Made,
) -> Result<Made, Memory>
    requires statement { PatternNames (λ n. n < length names.old) statement.now.node }
    ensures filled { IfOk result (λ after. (final : List (List ℕ)) → Later names.new final → Over final bindings.old (λ bs. IsPut final bs statement.now.comments statement.now.node (state_of made) (state_of after))) }
    ensures left { Leaves bindings.old bindings.new }
    ensures grows { Grows names.old names.new }
{
    match list_meta(statement) {
        Some(meta) => {
            let made = noted(alloc, &statement.comments, made)?;
            let run = run_for(alloc, bindings, &meta)?;
            put_all(alloc, run, made)
        }
        None => {
            let node = filled_node(alloc, names, bindings, &statement.node)?;
            put_one(alloc, &statement.comments, node, made)
        }
    }
}

/// The body of the block of a pattern.
#[cycle(filling)]
#[tactic(auto, using(crate::proofs::Growing::grow_rules))]
fn filled_sequence(
    alloc: Global,
    names: &mut Names,
    bindings: &mut [Binding],
    body: &PatternSequence,
) -> Result<Sequence, Memory>
    requires statements { StatementsLikeNames (λ n. n < length names.old) (statements_from body.now.statements.items) }
    ensures temporaries { IfOk result (λ made. made.temporaries ≡ body.now.temporaries) }
    ensures filled { IfOk result (λ made. (final : List (List ℕ)) → Later names.new final → Over final bindings.old (λ bs. IsSequenceFilled final bs (statements_from body.now.statements.items) body.now.tail (statements_of made.statements) made.tail)) }
    ensures left { Leaves bindings.old bindings.new }
    ensures grows { Grows names.old names.new }
{
    let mut made = Made {
        statements: Vec::new(alloc),
        waiting: Comments::new(alloc),
    };
    for statement in &body.statements {
        made = put_statement(alloc, names, bindings, statement, made)?;
    }
    let temporaries = body.temporaries.try_copy(alloc)?;
    let whole = noted(alloc, &body.tail, made)?;
    Ok(Sequence {
        temporaries,
        statements: Statements::from_vec(whole.statements),
        tail: whole.waiting,
    })
}

/// The node that results when each metavariable of a pattern is replaced by what it is bound to. The names of selectors that
/// keywords make are added to the table, where they are new. What is bound moves to its place where it is wanted once. The
/// error is want of memory.
pub fn fill(
    alloc: Global,
    names: &mut Names,
    bindings: &mut [Binding],
    pattern: &Pattern,
) -> Result<Node, Memory>
    requires pattern { PatternNames (λ n. n < length names.old) pattern.now }
    ensures filled { IfOk result (λ node. Over names.new bindings.old (λ bs. map_names (name_at names.new) node
        ≡ fill text_eq concat (map (map_binding (name_at names.new)) bs) (map_pattern (name_at names.new) pattern.now))) }
    ensures known { IfOk result (λ node. Over names.new bindings.old (λ bs. AllNames (λ n. n < length names.new) node)) }
    ensures grows { Grows names.old names.new }
{
    let node = filled_node(alloc, names, bindings, pattern)?;
    // No text of the table has two numbers.
    let _ = names.len();
    Ok(node)
}
