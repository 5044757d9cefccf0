// The texts of patterns and rules, read.
ghost use Rattle.std.specs.Prelude.{◌<◌, length, IfOk, IfErr, MatchOption};
ghost use Rattle.rb_base.specs.Names.{name_at};
ghost use Rattle.event_trees.specs.Naming.{Grows};
ghost use Rattle.pattern_model.specs.Named.{map_pattern};
ghost use Rattle.patterns.specs.Names.{PatternNames};
ghost use Rattle.rewrite_model.specs.Saying.{SaysPattern, SaysReplacement, IsRefusedReplacement};
ghost use Rattle.pattern_faults.specs.Told.{cause_of, IsRefused, IsRefusedRule};

use crate::fault::{PatternFault, RuleFault};
use crate::lists::{Search, walk_node};
use crate::searching::{first_again, first_unknown, metas_in, metas_of};
use event_spans::Places;
use event_trees::build_doit;
use pattern_trees::pattern_of;
use patterns::{Pattern, Rule};
use rb_base::Names;
use st_reading::read_pattern as read_events;
use std::alloc::Global;

/// The pattern that a text says: one expression of Smalltalk-80 in which metavariables stand. Its names are numbers in `names`,
/// to which those that are new are added.
///
/// # Errors
///
/// The first fault of the text, at an offset in bytes from its start, or want of memory.
pub fn read_pattern(alloc: Global, text: &[u8], names: &mut Names) -> Result<Pattern, PatternFault>
    ensures said { IfOk result (λ p. SaysPattern text.now (map_pattern (name_at names.new) p)) }
    ensures known { IfOk result (λ p. PatternNames (λ n. n < length names.new) p) }
    ensures fault { IfErr result (IsRefused text.now) }
    ensures grows { Grows names.old names.new }
{
    let found = read_events(alloc, text)?;
    let places = Places::of(alloc, &found)?;
    let spans = places.spans(alloc)?;
    let body = build_doit(alloc, found, names)?;
    let Some((statement, _)) = body.statements.as_slice().split_first() else {
        unreachable!()
    };
    let mut search = Search {
        rest: spans.as_slice(),
        found: None,
    };
    walk_node(names, &statement.node, false, &mut search);
    if let Some(at) = search.found {
        return Err(PatternFault::TwoLists { at });
    }
    let pattern = pattern_of(alloc, &statement.node, names)?;
    Ok(pattern)
}

/// Whether the metavariables of a replacement, which a text says, are those of the pattern that it replaces, and none that is
/// doubled there stands twice.
fn judge_metas(
    alloc: Global,
    names: &Names,
    pattern: &Pattern,
    replacement: &Pattern,
    text: &[u8],
) -> Result<(), PatternFault>
    requires pattern { PatternNames (λ n. n < length names.now) pattern.now }
    requires replacement { PatternNames (λ n. n < length names.now) replacement.now }
    requires said { SaysPattern text.now (map_pattern (name_at names.now) replacement.now) }
    ensures said { IfOk result (λ _. SaysReplacement (map_pattern (name_at names.now) pattern.now) text.now (map_pattern (name_at names.now) replacement.now)) }
    ensures fault { IfErr result (λ f. MatchOption (cause_of f) (Unit {0}) (IsRefusedReplacement (map_pattern (name_at names.now) pattern.now) text.now)) }
{
    let _ = names.len();
    let known = metas_of(alloc, pattern)?;
    let placed = metas_in(alloc, replacement, text)?;
    if let Some(at) = first_unknown(&known, &placed) {
        return Err(PatternFault::UnboundInReplacement { at });
    }
    if let Some(at) = first_again(alloc, &known, &placed)? {
        return Err(PatternFault::TwiceDoubled { at });
    }
    Ok(())
}

/// The pattern that the text of a replacement says: its metavariables are those of the pattern that it replaces, and none
/// that is doubled there stands twice.
///
/// # Errors
///
/// The first fault of the text, at an offset in bytes from its start, or want of memory.
fn read_replacement(
    alloc: Global,
    pattern: &Pattern,
    text: &[u8],
    names: &mut Names,
) -> Result<Pattern, PatternFault>
    requires { PatternNames (λ n. n < length names.old) pattern.now }
    ensures said { IfOk result (λ q. SaysReplacement (map_pattern (name_at names.new) pattern.now) text.now (map_pattern (name_at names.new) q)) }
    ensures known { IfOk result (λ q. PatternNames (λ n. n < length names.new) q) }
    ensures fault { IfErr result (λ f. MatchOption (cause_of f) (Unit {0}) (IsRefusedReplacement (map_pattern (name_at names.old) pattern.now) text.now)) }
    ensures grows { Grows names.old names.new }
{
    let replacement = read_pattern(alloc, text, names)?;
    judge_metas(alloc, names, pattern, &replacement, text)?;
    Ok(replacement)
}

/// The rule that two texts say: what is replaced, and by what. Its names are numbers in `names`, to which those that are new
/// are added.
///
/// # Errors
///
/// The first fault of the pattern, or else of the replacement, at an offset in bytes from the start of that text, or want of
/// memory.
pub fn read_rule(
    alloc: Global,
    pattern: &[u8],
    replacement: &[u8],
    names: &mut Names,
) -> Result<Rule, RuleFault>
    ensures pattern { IfOk result (λ r. SaysPattern pattern.now (map_pattern (name_at names.new) r.pattern)) }
    ensures replacement { IfOk result (λ r. SaysReplacement (map_pattern (name_at names.new) r.pattern) replacement.now (map_pattern (name_at names.new) r.replacement)) }
    ensures known_pattern { IfOk result (λ r. PatternNames (λ n. n < length names.new) r.pattern) }
    ensures known_replacement { IfOk result (λ r. PatternNames (λ n. n < length names.new) r.replacement) }
    ensures fault { IfErr result (IsRefusedRule pattern.now replacement.now) }
    ensures grows { Grows names.old names.new }
{
    let pattern = match read_pattern(alloc, pattern, names) {
        Ok(pattern) => pattern,
        Err(fault) => return Err(RuleFault::Pattern(fault)),
    };
    match read_replacement(alloc, &pattern, replacement, names) {
        Ok(replacement) => Ok(Rule {
            pattern,
            replacement,
        }),
        Err(fault) => Err(RuleFault::Replacement(fault)),
    }
}
