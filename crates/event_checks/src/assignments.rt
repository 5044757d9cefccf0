// Assignments to names that cannot be assigned.
ghost use Rattle.std.specs.Prelude.{◌≡◌, List, Option, IfOk};
ghost use Rattle.grammar_model.specs.Checks.{known_of, fixed_in_statements};
ghost use Rattle.grammar_model.specs.Spanned.{Declared, SpannedStatements};
ghost use Rattle.parse_events.specs.Found.{declarations, statements_events};
ghost use Rattle.event_checks.specs.Scopes.{Scoped, IsScopes, assigned_at, behind, first_fixed_in};

use crate::fixed_names::may_assign_fixed;
use crate::scopes::Scopes;
use crate::words::is_pseudo;
use parse_events::{Declaration, Event};
use rb_base::Memory;
use std::alloc::Global;

/// The place of an event that assigns a name that cannot be assigned.
fn fixed_at(scopes: &Scopes, event: &Event) -> Option<usize>
    ensures { (known : Scoped) → IsScopes scopes.now known.now known.outer → result ≡ assigned_at known.now event.now }
{
    match event {
        Event::Target { from, name } => {
            if is_pseudo(name.as_slice()) || scopes.is_fixed(name.as_slice()) {
                Some(*from as usize)
            } else {
                None
            }
        }
        _ => None,
    }
}

/// Enters or leaves the scope that an event opens or closes.
fn follow(alloc: Global, scopes: &mut Scopes, event: &Event) -> Result<(), Memory>
    ensures { IfOk result (λ _. (known : Scoped) → IsScopes scopes.old known.now known.outer →
        IsScopes scopes.new (behind event.now known).now (behind event.now known).outer) }
{
    match event {
        Event::Enter {
            parameters,
            temporaries,
        } => scopes.enter(alloc, parameters.as_slice(), temporaries.as_slice()),
        Event::Block { .. } => scopes.leave(alloc),
        _ => Ok(()),
    }
}

/// The place of the first event that assigns a name that cannot be assigned.
fn fixed_in_events(
    alloc: Global,
    scopes: &mut Scopes,
    events: &[Event],
) -> Result<Option<usize>, Memory>
    ensures { IfOk result (λ fixed. (known : Scoped) → IsScopes scopes.old known.now known.outer → fixed ≡ first_fixed_in known events.now) }
{
    for event in events {
        let fixed = fixed_at(scopes, event);
        if fixed.is_some() {
            return Ok(fixed);
        }
        follow(alloc, scopes, event)?;
    }
    Ok(None)
}

/// The place of the first assignment, in the order of the text, to a pseudo-variable or to a name whose innermost
/// declaration is an argument or a parameter.
pub(crate) fn first_fixed(
    alloc: Global,
    arguments: &[Declaration],
    temporaries: &[Declaration],
    events: &[Event],
) -> Result<Option<usize>, Memory>
    ensures { IfOk result (λ fixed. (ps ds : List Declared) (ss : SpannedStatements) → arguments.now ≡ declarations ps → temporaries.now ≡ declarations ds → events.now ≡ statements_events ss →
        fixed ≡ fixed_in_statements (known_of ps ds) ss) }
{
    if !may_assign_fixed(alloc, arguments, events)? {
        return Ok(None);
    }
    let mut scopes = Scopes::new(alloc);
    scopes.declare_list(alloc, arguments, temporaries)?;
    fixed_in_events(alloc, &mut scopes, events)
}
