// What stands for the metavariables of patterns in trees.
ghost use Rattle.std.specs.Prelude.{◌≡◌, ◌++◌, map, IfOk, OnOk};
ghost use Rattle.std.specs.Cmp.Lexicographic.{pointwise};
ghost use Rattle.pattern_model.specs.Patterns.{MetaOf};
ghost use Rattle.patterns.specs.View.{keyword_of, selector_of};
ghost use Rattle.derivations.specs.Signs.{sign_of, same_keyword, same_selector, same_sign, is_unary_sign};

use pattern_match::same_meta;
use patterns::{Meta, PatternKeyword, PatternSelector};
use rb_base::Memory;
use std::alloc::Global;

/// What a name stands for.
#[derive(Drop)]
pub(crate) enum Mark {
    /// A metavariable as a node.
    Node(Meta),
    /// A selector with metavariables.
    Selector(PatternSelector),
}

/// Whether both are the same keyword.
fn is_same_keyword(a: &PatternKeyword, b: &PatternKeyword) -> bool
    ensures { result ≡ same_keyword (keyword_of a.now) (keyword_of b.now) }
{
    match (a, b) {
        (PatternKeyword::Plain(a), PatternKeyword::Plain(b)) => a.same(b),
        (PatternKeyword::Any(a), PatternKeyword::Any(b)) => same_meta(*a, *b),
        _ => false,
    }
}

/// Whether both are the same keywords in the same order.
fn are_same_keywords(a: &[PatternKeyword], b: &[PatternKeyword]) -> bool
    ensures { result ≡ pointwise same_keyword (map keyword_of a.now) (map keyword_of b.now) }
{
    if a.len() != b.len() {
        return false;
    }
    for (i, keyword) in a.iter().enumerate() {
        if !is_same_keyword(keyword, &b[i]) {
            return false;
        }
    }
    true
}

/// Whether both are the same selector.
fn is_same_selector(a: &PatternSelector, b: &PatternSelector) -> bool
    ensures { result ≡ same_selector (selector_of a.now) (selector_of b.now) }
{
    match (a, b) {
        (PatternSelector::Plain(a), PatternSelector::Plain(b)) => a.0 == b.0,
        (PatternSelector::Unary(a), PatternSelector::Unary(b)) => same_meta(*a, *b),
        (PatternSelector::Keywords(a), PatternSelector::Keywords(b)) => are_same_keywords(a, b),
        (PatternSelector::Whole(a), PatternSelector::Whole(b)) => same_meta(*a, *b),
        _ => false,
    }
}

/// Whether both are the same: metavariables if kind and name are, doubled or not.
pub(crate) fn is_same_mark(a: &Mark, b: &Mark) -> bool
    ensures { result ≡ same_sign (sign_of a.now) (sign_of b.now) }
{
    match (a, b) {
        (Mark::Node(a), Mark::Node(b)) => same_meta(*a, *b),
        (Mark::Selector(a), Mark::Selector(b)) => is_same_selector(a, b),
        _ => false,
    }
}

/// Whether it is any unary selector.
pub(crate) fn is_unary(mark: &Mark) -> bool
    ensures { result ≡ is_unary_sign (sign_of mark.now) }
{
    matches!(mark, Mark::Selector(PatternSelector::Unary(_)))
}

/// A copy of keywords.
fn copied_keywords(
    alloc: Global,
    keywords: &[PatternKeyword],
) -> Result<Vec<PatternKeyword>, Memory>
    ensures { IfOk result (λ copied. map keyword_of copied.items ≡ map keyword_of keywords.now) }
{
    let mut copied = Vec::new(alloc);
    for keyword in keywords {
        let one = match keyword {
            PatternKeyword::Plain(text) => PatternKeyword::Plain(text.try_copy(alloc)?),
            PatternKeyword::Any(meta) => PatternKeyword::Any(*meta),
        };
        copied.push(one)?;
    }
    Ok(copied)
}

/// A copy of a selector.
pub(crate) fn copied_selector(
    alloc: Global,
    selector: &PatternSelector,
) -> Result<PatternSelector, Memory>
    ensures { IfOk result (λ copied. selector_of copied ≡ selector_of selector.now) }
{
    match selector {
        PatternSelector::Plain(name) => Ok(PatternSelector::Plain(*name)),
        PatternSelector::Unary(meta) => Ok(PatternSelector::Unary(*meta)),
        PatternSelector::Keywords(keywords) => {
            let copied = copied_keywords(alloc, keywords)?;
            Ok(PatternSelector::Keywords(copied))
        }
        PatternSelector::Whole(meta) => Ok(PatternSelector::Whole(*meta)),
    }
}
