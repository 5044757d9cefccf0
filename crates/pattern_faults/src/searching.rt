// Faults of the metavariables of a replacement.
ghost use Rattle.std.specs.Prelude.{◌≡◌, ◌&&◌, List, [], false, nat_eq, filter, map, IfOk};
ghost use Rattle.std.specs.List.{list_any};
ghost use Rattle.token_model.specs.declared.kind.Dialect.TheVariants.{Second};
ghost use Rattle.grammar_model.specs.Input.{Lexeme};
ghost use Rattle.grammar_model.specs.PatternTokens.{IsPatternLexed};
ghost use Rattle.pattern_model.specs.Patterns.{metas};
ghost use Rattle.pattern_model.specs.Bindings.{same_meta};
ghost use Rattle.patterns.specs.View.{meta_of};
ghost use Rattle.pattern_trees.specs.Faults.{at_places, is_doubled_among, first_unknown, first_again, meta_places};
ghost use Rattle.pattern_faults.specs.Placed.{meta_at};

use crate::places::meta_places;
use pattern_match::{put_metas, same_meta};
use patterns::{Meta, Pattern};
use rb_base::Memory;
use std::alloc::Global;

/// A metavariable, and where it begins in its text.
#[derive(Clone, Copy)]
pub(crate) struct PlacedMeta {
    pub(crate) meta: Meta,
    pub(crate) from: usize,
}

/// The metavariables of a pattern, in the order of the text.
pub(crate) fn metas_of(alloc: Global, pattern: &Pattern) -> Result<Vec<Meta>, Memory>
    ensures { IfOk result (λ ms. map meta_of ms.items ≡ metas pattern.now) }
{
    let mut found = Vec::new(alloc);
    put_metas(pattern, &mut found)?;
    Ok(found)
}

/// Metavariables in the order of a text, each with its place.
fn placed_metas(alloc: Global, metas: &[Meta], places: &[usize]) -> Result<Vec<PlacedMeta>, Memory>
    ensures { IfOk result (λ placed. map meta_at placed.items ≡ at_places (map meta_of metas.now) places.now) }
{
    let mut placed = Vec::new(alloc);
    let mut rest = places;
    for meta in metas {
        let (from, others) = match rest.split_first() {
            Some((from, others)) => (*from, others),
            None => (0, rest),
        };
        placed.push(PlacedMeta { meta: *meta, from })?;
        rest = others;
    }
    Ok(placed)
}

/// The metavariables of a pattern in the order of its text, each with its place.
pub(crate) fn metas_in(
    alloc: Global,
    pattern: &Pattern,
    text: &[u8],
) -> Result<Vec<PlacedMeta>, Memory>
    requires { (tokens : List Lexeme) × IsPatternLexed Second text.now tokens }
    ensures { IfOk result (λ placed. (tokens : List Lexeme) → IsPatternLexed Second text.now tokens → map meta_at placed.items ≡ at_places (metas pattern.now) (meta_places false tokens)) }
{
    let Some(places) = meta_places(alloc, text)? else {
        unreachable!()
    };
    let metas = metas_of(alloc, pattern)?;
    let placed = placed_metas(alloc, &metas, &places)?;
    Ok(placed)
}

/// Whether the metavariable is one of these.
fn is_among(metas: &[Meta], meta: Meta) -> bool
    ensures { result ≡ list_any (λ x. same_meta nat_eq (meta_of meta) (meta_of x)) metas.now }
{
    metas.iter().any(|other| same_meta(meta, *other))
}

/// Whether the metavariable is one that these double somewhere.
fn is_doubled_among(metas: &[Meta], meta: Meta) -> bool
    ensures { result ≡ list_any (λ x. same_meta nat_eq (meta_of meta) (meta_of x) && x.doubled) metas.now }
{
    metas
        .iter()
        .any(|other| same_meta(meta, *other) && other.doubled)
}

/// Where the first metavariable begins that is none of the known ones.
pub(crate) fn first_unknown(known: &[Meta], placed: &[PlacedMeta]) -> Option<usize>
    ensures { result ≡ first_unknown nat_eq (map meta_of known.now) (map meta_at placed.now) }
{
    for place in placed {
        if !is_among(known, place.meta) {
            return Some(place.from);
        }
    }
    None
}

/// Where the first metavariable begins that stands behind the same one and that the known ones double somewhere.
pub(crate) fn first_again(
    alloc: Global,
    known: &[Meta],
    placed: &[PlacedMeta],
) -> Result<Option<usize>, Memory>
    ensures { IfOk result (λ found. found ≡ first_again nat_eq [] (filter (λ x. is_doubled_among nat_eq (map meta_of known.now) x.meta) (map meta_at placed.now))) }
{
    let mut before = Vec::new(alloc);
    for place in placed {
        if is_doubled_among(known, place.meta) {
            if is_among(&before, place.meta) {
                return Ok(Some(place.from));
            }
            before.push(place.meta)?;
        }
    }
    Ok(None)
}
