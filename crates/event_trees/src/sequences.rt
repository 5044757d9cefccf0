// Sequences and methods from events.
ghost use Rattle.std.specs.Prelude.{◌≡◌, ◌<◌, List, Some, map, length, slice_get, IsTrue, IfOk, OnOk};
ghost use Rattle.tree_model.specs.Tree.{map_statements, map_sequence, map_method};
ghost use Rattle.tree_model.specs.Normal.{leading, without_leading, normal};
ghost use Rattle.tree_model.specs.AllNames.{SequenceNames, MethodNames};
ghost use Rattle.grammar_model.specs.Terminal.{Text};
ghost use Rattle.grammar_model.specs.Spanned.{SpannedSequence, SpannedMethod, plain_sequence, plain_method};
ghost use Rattle.parse_events.specs.Found.{sequence_events, method_events};
ghost use Rattle.st_tree.specs.View.{statements_of, sequence_of, method_of};
ghost use Rattle.rb_base.specs.Names.{name_at};
ghost use Rattle.event_trees.specs.Stacks.{nothing, steps, statements_in, all_names, declared_by};
ghost use Rattle.event_trees.specs.Naming.{Grows, Adds, AllPass};
ghost use Rattle.event_trees.specs.Trees.{SequenceIs, MethodIs, found_names, method_names};

use crate::building::build;
use crate::naming::{number_of, numbers_of};
use crate::stacks::Stacks;
use parse_events::{Events, MethodEvents, SequenceEvents};
use rb_base::{Memory, Names};
use st_tree::{Comments, Method, Sequence, Statements};
use std::alloc::Global;
use std::mem::replace;

/// The statements that events build.
fn statements(alloc: Global, events: Events, names: &mut Names) -> Result<Statements, Memory>
    ensures built { IfOk result (λ ss. (final : List Text) → Grows names.new final →
        map_statements (slice_get final) (statements_of ss) ≡ statements_in (steps (λ t. Some t) nothing events).statements) }
    ensures adds { OnOk result (Adds names.old names.new (AllPass (all_names events))) }
    ensures grows { Grows names.old names.new }
{
    let mut stacks = Stacks::with_room(alloc)?;
    for event in events.into_vec() {
        build(alloc, &mut stacks, names, event)?;
    }
    let Stacks { statements, .. } = stacks;
    Ok(Statements::from_vec(statements))
}

/// The sequence that events build.
fn sequence(alloc: Global, found: SequenceEvents, names: &mut Names) -> Result<Sequence, Memory>
    ensures built { IfOk result (λ body. SequenceIs names.new found body) }
    ensures adds { OnOk result (Adds names.old names.new (AllPass (found_names found))) }
    ensures grows { Grows names.old names.new }
{
    let SequenceEvents {
        temporaries,
        events,
        tail,
    } = found;
    let temporaries = numbers_of(alloc, names, &temporaries)?;
    let statements = statements(alloc, events, names)?;
    Ok(Sequence {
        temporaries,
        statements,
        tail,
    })
}

/// The comments that were first in a sequence, and the sequence without them.
struct Taken {
    comments: Comments,
    body: Sequence,
}

/// Takes the first comments of a sequence out of it: those of its first statement, or those at its end where it has no
/// statement.
fn take_leading(alloc: Global, body: Sequence) -> Taken
    ensures comments { result.comments ≡ leading (sequence_of body) }
    ensures body { sequence_of result.body ≡ without_leading (sequence_of body) }
{
    let Sequence {
        temporaries,
        statements,
        tail,
    } = body;
    let mut items = statements.into_vec();
    let mut kept = tail;
    let comments = if items.is_empty() {
        replace(&mut kept, Comments::new(alloc))
    } else {
        replace(&mut items[0].comments, Comments::new(alloc))
    };
    Taken {
        comments,
        body: Sequence {
            temporaries,
            statements: Statements::from_vec(items),
            tail: kept,
        },
    }
}

/// The method with its comments in normal form.
fn normalized(alloc: Global, method: Method) -> Result<Method, Memory>
    ensures { IfOk result (λ m. method_of m ≡ normal (method_of method)) }
{
    if !method.body.temporaries.is_empty() {
        return Ok(method);
    }
    let Method {
        selector,
        arguments,
        head,
        primitive,
        body,
    } = method;
    let Taken { comments, body } = take_leading(alloc, body);
    let mut first = head.into_vec();
    let mut second = comments.into_vec();
    first.append(&mut second)?;
    Ok(Method {
        selector,
        arguments,
        head: Comments::from_vec(first),
        primitive,
        body,
    })
}

/// The method that events build.
fn method(alloc: Global, found: MethodEvents, names: &mut Names) -> Result<Method, Memory>
    ensures built { IfOk result (λ m. MethodIs names.new found m) }
    ensures adds { OnOk result (Adds names.old names.new (AllPass (method_names found))) }
    ensures grows { Grows names.old names.new }
{
    let MethodEvents {
        selector,
        arguments,
        opening,
        primitive,
        body,
    } = found;
    let selector = number_of(names, &selector)?;
    let arguments = numbers_of(alloc, names, &arguments)?;
    let body = sequence(alloc, body, names)?;
    normalized(
        alloc,
        Method {
            selector,
            arguments,
            head: opening,
            primitive,
            body,
        },
    )
}

/// The sequence that the events of a do-it build. Its names get numbers in the order of the events; on want of memory
/// some may have been added.
pub fn build_doit(
    alloc: Global,
    found: SequenceEvents,
    names: &mut Names,
) -> Result<Sequence, Memory>
    ensures tree { IfOk result (λ body. (s : SpannedSequence) → found ≡ sequence_events s → map_sequence (name_at names.new) (sequence_of body) ≡ plain_sequence s) }
    ensures known { IfOk result (λ body. (s : SpannedSequence) → found ≡ sequence_events s → SequenceNames (λ n. n < length names.new) (sequence_of body)) }
    ensures adds { OnOk result ((s : SpannedSequence) → found ≡ sequence_events s → Adds names.old names.new (λ p. SequenceNames (λ t. IsTrue (p t)) (plain_sequence s))) }
    ensures grows { Grows names.old names.new }
{
    sequence(alloc, found, names)
}

/// The method that events build, its comments in normal form. Its names get numbers in the order of the events; on want
/// of memory some may have been added.
pub fn build_method(alloc: Global, found: MethodEvents, names: &mut Names) -> Result<Method, Memory>
    ensures tree { IfOk result (λ m. (s : SpannedMethod) → found ≡ method_events s → map_method (name_at names.new) (method_of m) ≡ plain_method s) }
    ensures known { IfOk result (λ m. (s : SpannedMethod) → found ≡ method_events s → MethodNames (λ n. n < length names.new) (method_of m)) }
    ensures adds { OnOk result ((s : SpannedMethod) → found ≡ method_events s → Adds names.old names.new (λ p. MethodNames (λ t. IsTrue (p t)) (plain_method s))) }
    ensures grows { Grows names.old names.new }
{
    method(alloc, found, names)
}
