// A law at one node.
ghost use Rattle.std.specs.Prelude.{◌≡◌, ◌<◌, length, map, option_map, IfOk, MatchOption};
ghost use Rattle.std.specs.List.{list_all};
ghost use Rattle.rb_base.specs.Names.{name_at};
ghost use Rattle.tree_model.specs.Tree.{map_names};
ghost use Rattle.tree_model.specs.AllNames.{AllNames};
ghost use Rattle.event_trees.specs.Naming.{Grows};
ghost use Rattle.patterns.specs.Names.{PatternNames};
ghost use Rattle.pattern_match.specs.Bound.{held_of};
ghost use Rattle.pattern_match.specs.Gathering.{bound_from};
ghost use Rattle.filled_patterns.specs.Left.{Holds};
ghost use Rattle.derivations.specs.Numbered.{table_of};
ghost use Rattle.derivations.specs.Signs.{sign_of};
ghost use Rattle.derivations.specs.Turned.{is_statement_sign, is_for_statements, fits, turned_at};

use crate::marking::Marks;
use crate::marks::Mark;
use filled_patterns::{Binding, fill};
use pattern_match::{Held, Standing, copied, match_at};
use pattern_model::MetaKind;
use patterns::{Meta, Pattern};
use rb_base::{Memory, NameId, Names};
use st_tree::{Node, NodeKind};
use std::alloc::Global;

/// Whether the mark is a metavariable for statements.
fn is_statement_mark(mark: &Mark) -> bool
    ensures { result ≡ is_statement_sign (sign_of mark.now) }
{
    matches!(
        mark,
        Mark::Node(Meta {
            kind: MetaKind::Statement | MetaKind::StatementList,
            ..
        })
    )
}

/// Whether the name stands for a metavariable for statements.
fn is_for_statements(marks: &Marks, name: NameId) -> bool
    ensures { result ≡ is_for_statements (table_of marks.now) name }
{
    if name.0 < marks.first {
        return false;
    }
    match marks.items.get(name.0 - marks.first) {
        Some(mark) => is_statement_mark(mark),
        None => false,
    }
}

/// Whether it may stand for a metavariable of a law: a metavariable for statements is no expression.
fn may_stand(marks: &Marks, standing: &Standing<'_>) -> bool
    ensures { result ≡ fits (table_of marks.now) (bound_from standing.now) }
{
    match standing {
        Standing::Part(node) => match &node.kind {
            NodeKind::Var { name } => !is_for_statements(marks, *name),
            _ => true,
        },
        _ => true,
    }
}

/// Whether all that is bound may stand for the metavariables of a law.
fn all_may_stand(marks: &Marks, held: &[Held<'_>]) -> bool
    ensures { result ≡ list_all (λ b. fits (table_of marks.now) b.bound) (map held_of held.now) }
{
    for one in held {
        if !may_stand(marks, &one.bound) {
            return false;
        }
    }
    true
}

/// What is bound, copied, each to be put at one place.
fn bindings_of(alloc: Global, held: &[Held<'_>]) -> Result<Vec<Binding>, Memory>
    ensures { IfOk result (λ bindings. Holds (map held_of held.now) bindings.items) }
{
    let mut bindings = Vec::new(alloc);
    for one in held {
        let bound = copied(alloc, &one.bound)?;
        bindings.push(Binding {
            meta: one.meta,
            single: true,
            bound: Some(bound),
        })?;
    }
    Ok(bindings)
}

/// The node as the other side of a law, if the one side matches.
pub(crate) fn turned(
    alloc: Global,
    names: &mut Names,
    marks: &Marks,
    sides: &(Pattern, Pattern),
    node: &Node,
) -> Result<Option<Node>, Memory>
    requires first { PatternNames (λ n. n < length names.old) sides.now.0 }
    requires second { PatternNames (λ n. n < length names.old) sides.now.1 }
    requires node { AllNames (λ n. n < length names.old) node.now }
    ensures turned { IfOk result (λ made. option_map (map_names (name_at names.new)) made ≡ turned_at (table_of marks.now) names.old sides.now node.now) }
    ensures known { IfOk result (λ made. MatchOption made (Unit {0}) (AllNames (λ n. n < length names.new))) }
    ensures grows { Grows names.old names.new }
{
    let Some(held) = match_at(alloc, names, &sides.0, node)? else {
        return Ok(None);
    };
    if !all_may_stand(marks, held.as_slice()) {
        return Ok(None);
    }
    let mut bindings = bindings_of(alloc, held.as_slice())?;
    let made = fill(alloc, names, bindings.as_mut_slice(), &sides.1)?;
    Ok(Some(made))
}
