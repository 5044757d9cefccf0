// Names and selectors, which may be metavariables.
ghost use Rattle.std.specs.Prelude.{◌≡◌, ◌<◌, ℕ, List, length, IfOk};
ghost use Rattle.tree_model.specs.Tree.{var};
ghost use Rattle.pattern_model.specs.Spelled.{spelled};
ghost use Rattle.event_trees.specs.Naming.{Grows};
ghost use Rattle.pattern_trees.specs.Reading.{IsMeta, IsKeyword, AreKeywords, IsSelector, IsPattern};

use crate::spelling::{
    begins, behind, have_meta, is_message, is_meta, keywords_of, marked, operand_parts, uncoloned,
};
use pattern_model::MetaKind;
use patterns::{Meta, Pattern, PatternKeyword, PatternKind, PatternSelector};
use rb_base::{Memory, NameId, Names, Text};
use spelled_words::has_colon;
use std::alloc::Global;

/// The metavariable of a kind that a text spells. Its name gets a number.
#[tactic(auto, using(crate::proofs::Growing::grow_rules))]
fn meta_of(names: &mut Names, text: &[u8], kind: MetaKind, name: &[u8]) -> Result<Meta, Memory>
    ensures read { IfOk result (λ m. (final : List (List ℕ)) → Grows names.new final → IsMeta final (spelled text.now kind name.now) m) }
    ensures grows { Grows names.old names.new }
{
    let name = names.intern(name)?;
    Ok(Meta {
        kind,
        name,
        doubled: begins(b'`', behind(text)),
    })
}

/// The pattern of a name that stands as an operand or a statement.
#[tactic(auto, using(crate::proofs::Growing::grow_rules))]
pub(crate) fn operand_pattern(
    alloc: Global,
    names: &mut Names,
    name: NameId,
) -> Result<Pattern, Memory>
    requires { name < length names.old }
    ensures read { IfOk result (λ p. (final : List (List ℕ)) → Grows names.new final → IsPattern final (var name) p) }
    ensures grows { Grows names.old names.new }
{
    let copied = Text::from_slice(alloc, names.text_of(name))?;
    let text = copied.as_slice();
    if !is_meta(text) {
        return Ok(Pattern {
            kind: PatternKind::Var { name },
        });
    }
    let (kind, behind) = operand_parts(text);
    let meta = meta_of(names, text, kind, behind)?;
    Ok(Pattern {
        kind: PatternKind::Meta { meta },
    })
}

/// The pattern of a keyword.
#[tactic(auto, using(crate::proofs::Growing::grow_rules))]
fn keyword_pattern(
    alloc: Global,
    names: &mut Names,
    keyword: &Text,
) -> Result<PatternKeyword, Memory>
    ensures read { IfOk result (λ k. (final : List (List ℕ)) → Grows names.new final → IsKeyword final keyword.now k) }
    ensures grows { Grows names.old names.new }
{
    let text = keyword.as_slice();
    if !is_meta(text) {
        return Ok(PatternKeyword::Plain(keyword.try_copy(alloc)?));
    }
    let meta = meta_of(names, text, MetaKind::Keyword, uncoloned(marked(text)))?;
    Ok(PatternKeyword::Any(meta))
}

/// The patterns of keywords.
#[tactic(auto, using(crate::proofs::Growing::grow_rules))]
fn keyword_patterns(
    alloc: Global,
    names: &mut Names,
    keywords: &[Text],
) -> Result<Vec<PatternKeyword>, Memory>
    ensures read { IfOk result (λ ks. (final : List (List ℕ)) → Grows names.new final → AreKeywords final keywords.now ks.items) }
    ensures grows { Grows names.old names.new }
{
    let mut patterns = Vec::new(alloc);
    for keyword in keywords {
        patterns.push(keyword_pattern(alloc, names, keyword)?)?;
    }
    Ok(patterns)
}

/// The pattern of a selector.
#[tactic(auto, using(crate::proofs::Growing::grow_rules))]
pub(crate) fn selector_pattern(
    alloc: Global,
    names: &mut Names,
    selector: NameId,
) -> Result<PatternSelector, Memory>
    requires { selector < length names.old }
    ensures read { IfOk result (λ s. (final : List (List ℕ)) → Grows names.new final → IsSelector final selector s) }
    ensures grows { Grows names.old names.new }
{
    let copied = Text::from_slice(alloc, names.text_of(selector))?;
    let text = copied.as_slice();
    let keywords = keywords_of(alloc, text)?;
    if !have_meta(&keywords) {
        return Ok(PatternSelector::Plain(selector));
    }
    let rest = marked(text);
    if !has_colon(text) {
        let meta = meta_of(names, text, MetaKind::Unary, rest)?;
        return Ok(PatternSelector::Unary(meta));
    }
    if is_message(text) {
        let meta = meta_of(names, text, MetaKind::Message, uncoloned(behind(rest)))?;
        return Ok(PatternSelector::Whole(meta));
    }
    let patterns = keyword_patterns(alloc, names, &keywords)?;
    Ok(PatternSelector::Keywords(patterns))
}
