// The metavariables of a pattern, in the order of the text.
ghost use Rattle.std.specs.Prelude.{◌≡◌, ◌++◌, OnOk, map};
ghost use Rattle.pattern_model.specs.Patterns.{keyword_metas, metas, trees_metas, message_metas, metas_in_turn, messages_metas, statements_metas};
ghost use Rattle.patterns.specs.View.{meta_of, keyword_of, selector_of, patterns_of, messages_from, statements_from};

use patterns::{
    Meta, Pattern, PatternKeyword, PatternKind, PatternMessage, PatternSelector, PatternStatement,
};
use rb_base::Memory;

/// Puts the metavariable that a keyword is at the end.
fn put_keyword(keyword: &PatternKeyword, found: &mut Vec<Meta>) -> Result<(), Memory>
    ensures { OnOk result (map meta_of found.new.items ≡ map meta_of found.old.items ++ keyword_metas (keyword_of keyword.now)) }
{
    if let PatternKeyword::Any(meta) = keyword {
        found.push(*meta)?;
    }
    Ok(())
}

/// Puts the metavariables of a pattern at the end, in the order of the text.
#[cycle(metas)]
#[tactic(auto, using(patterns::proofs::Weights::weight_rules))]
pub fn put_metas(pattern: &Pattern, found: &mut Vec<Meta>) -> Result<(), Memory>
    ensures { OnOk result (map meta_of found.new.items ≡ map meta_of found.old.items ++ metas pattern.now) }
{
    match &pattern.kind {
        PatternKind::Meta { meta } => {
            found.push(*meta)?;
            Ok(())
        }
        PatternKind::Var { .. } | PatternKind::Literal { .. } => Ok(()),
        PatternKind::Send { receiver, message } => {
            put_metas(receiver, found)?;
            put_message(message, found)
        }
        PatternKind::Cascade { receiver, messages } => {
            put_metas(receiver, found)?;
            put_messages(messages, found)
        }
        PatternKind::Assign { value, .. } | PatternKind::Return { value } => put_metas(
            value, found,
        ),
        PatternKind::Block { body, .. } => put_statements(&body.statements, found),
        PatternKind::Brace { items } => put_all(items, found),
    }
}

/// The same for patterns in order.
#[cycle(metas)]
#[tactic(auto, using(patterns::proofs::Weights::weight_rules))]
fn put_all(patterns: &[Pattern], found: &mut Vec<Meta>) -> Result<(), Memory>
    ensures { OnOk result (map meta_of found.new.items ≡ map meta_of found.old.items ++ trees_metas (patterns_of patterns.now)) }
{
    for pattern in patterns {
        put_metas(pattern, found)?;
    }
    Ok(())
}

/// The same for keywords, each before its argument.
#[cycle(metas)]
#[tactic(auto, using(patterns::proofs::Weights::weight_rules))]
fn put_in_turn(
    patterns: &[Pattern],
    keywords: &[PatternKeyword],
    found: &mut Vec<Meta>,
) -> Result<(), Memory>
    ensures { OnOk result (map meta_of found.new.items ≡ map meta_of found.old.items ++ metas_in_turn (patterns_of patterns.now) (map keyword_of keywords.now)) }
{
    let mut rest = keywords;
    for pattern in patterns {
        let Some((keyword, others)) = rest.split_first() else {
            return Ok(());
        };
        put_keyword(keyword, found)?;
        put_metas(pattern, found)?;
        rest = others;
    }
    Ok(())
}

/// The same for a message.
#[cycle(metas)]
#[tactic(auto, using(patterns::proofs::Weights::weight_rules))]
fn put_message(message: &PatternMessage, found: &mut Vec<Meta>) -> Result<(), Memory>
    ensures { OnOk result (map meta_of found.new.items ≡ map meta_of found.old.items ++ message_metas (selector_of message.now.selector) (trees_metas (patterns_of message.now.arguments.items)) (metas_in_turn (patterns_of message.now.arguments.items))) }
{
    match &message.selector {
        PatternSelector::Plain(_) => put_all(&message.arguments, found),
        PatternSelector::Unary(meta) => {
            found.push(*meta)?;
            put_all(&message.arguments, found)
        }
        PatternSelector::Keywords(keywords) => put_in_turn(&message.arguments, keywords, found),
        PatternSelector::Whole(meta) => {
            found.push(*meta)?;
            Ok(())
        }
    }
}

/// The same for messages.
#[cycle(metas)]
#[tactic(auto, using(patterns::proofs::Weights::weight_rules))]
fn put_messages(messages: &[PatternMessage], found: &mut Vec<Meta>) -> Result<(), Memory>
    ensures { OnOk result (map meta_of found.new.items ≡ map meta_of found.old.items ++ messages_metas (messages_from messages.now)) }
{
    for message in messages {
        put_message(message, found)?;
    }
    Ok(())
}

/// The same for statements.
#[cycle(metas)]
#[tactic(auto, using(patterns::proofs::Weights::weight_rules))]
fn put_statements(statements: &[PatternStatement], found: &mut Vec<Meta>) -> Result<(), Memory>
    ensures { OnOk result (map meta_of found.new.items ≡ map meta_of found.old.items ++ statements_metas (statements_from statements.now)) }
{
    for statement in statements {
        put_metas(&statement.node, found)?;
    }
    Ok(())
}
