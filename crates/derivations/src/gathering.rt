// The marks of a pattern, in the order of the text.
ghost use Rattle.std.specs.Prelude.{◌≡◌, ◌++◌, map, OnOk};
ghost use Rattle.patterns.specs.View.{selector_of, patterns_of, messages_from, statements_from};
ghost use Rattle.derivations.specs.Signs.{sign_of, selector_signs, signs, trees_signs, messages_signs, statements_signs};

use crate::marks::{Mark, copied_selector};
use patterns::{Pattern, PatternKind, PatternMessage, PatternSelector, PatternStatement};
use rb_base::Memory;
use std::alloc::Global;

/// Puts the mark of a selector at the end; one that is spelled out has none.
fn put_selector(
    alloc: Global,
    selector: &PatternSelector,
    found: &mut Vec<Mark>,
) -> Result<(), Memory>
    ensures { OnOk result (map sign_of found.new.items ≡ map sign_of found.old.items ++ selector_signs (selector_of selector.now)) }
{
    if let PatternSelector::Plain(_) = selector {
        return Ok(());
    }
    let copied = copied_selector(alloc, selector)?;
    found.push(Mark::Selector(copied))?;
    Ok(())
}

/// Puts the marks of a pattern at the end.
#[cycle(marks)]
#[tactic(auto, using(patterns::proofs::Weights::weight_rules))]
pub(crate) fn put_marks(
    alloc: Global,
    pattern: &Pattern,
    found: &mut Vec<Mark>,
) -> Result<(), Memory>
    ensures { OnOk result (map sign_of found.new.items ≡ map sign_of found.old.items ++ signs pattern.now) }
{
    match &pattern.kind {
        PatternKind::Meta { meta } => {
            found.push(Mark::Node(*meta))?;
            Ok(())
        }
        PatternKind::Var { .. } | PatternKind::Literal { .. } => Ok(()),
        PatternKind::Send { receiver, message } => {
            put_marks(alloc, receiver, found)?;
            put_message(alloc, message, found)
        }
        PatternKind::Cascade { receiver, messages } => {
            put_marks(alloc, receiver, found)?;
            put_messages(alloc, messages, found)
        }
        PatternKind::Assign { value, .. } | PatternKind::Return { value } => put_marks(
            alloc, value, found,
        ),
        PatternKind::Block { body, .. } => put_statements(alloc, &body.statements, found),
        PatternKind::Brace { items } => put_all(alloc, items, found),
    }
}

/// The same for patterns in order.
#[cycle(marks)]
#[tactic(auto, using(patterns::proofs::Weights::weight_rules))]
fn put_all(alloc: Global, patterns: &[Pattern], found: &mut Vec<Mark>) -> Result<(), Memory>
    ensures { OnOk result (map sign_of found.new.items ≡ map sign_of found.old.items ++ trees_signs (patterns_of patterns.now)) }
{
    for pattern in patterns {
        put_marks(alloc, pattern, found)?;
    }
    Ok(())
}

/// The same for a message.
#[cycle(marks)]
#[tactic(auto, using(patterns::proofs::Weights::weight_rules))]
fn put_message(alloc: Global, message: &PatternMessage, found: &mut Vec<Mark>) -> Result<(), Memory>
    ensures { OnOk result (map sign_of found.new.items ≡ map sign_of found.old.items ++ (selector_signs (selector_of message.now.selector) ++ trees_signs (patterns_of message.now.arguments.items))) }
{
    put_selector(alloc, &message.selector, found)?;
    put_all(alloc, &message.arguments, found)
}

/// The same for messages.
#[cycle(marks)]
#[tactic(auto, using(patterns::proofs::Weights::weight_rules))]
fn put_messages(
    alloc: Global,
    messages: &[PatternMessage],
    found: &mut Vec<Mark>,
) -> Result<(), Memory>
    ensures { OnOk result (map sign_of found.new.items ≡ map sign_of found.old.items ++ messages_signs (messages_from messages.now)) }
{
    for message in messages {
        put_message(alloc, message, found)?;
    }
    Ok(())
}

/// The same for statements.
#[cycle(marks)]
#[tactic(auto, using(patterns::proofs::Weights::weight_rules))]
fn put_statements(
    alloc: Global,
    statements: &[PatternStatement],
    found: &mut Vec<Mark>,
) -> Result<(), Memory>
    ensures { OnOk result (map sign_of found.new.items ≡ map sign_of found.old.items ++ statements_signs (statements_from statements.now)) }
{
    for statement in statements {
        put_marks(alloc, &statement.node, found)?;
    }
    Ok(())
}
