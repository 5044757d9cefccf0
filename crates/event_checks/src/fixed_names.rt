// Whether a text has an assignment that needs a closer look.
ghost use Rattle.std.specs.Prelude.{◌≡◌, [], ◌++◌, List, true, false, None, IfOk, OnOk};
ghost use Rattle.std.specs.List.{list_any};
ghost use Rattle.std.specs.Str.{bytes_eq};
ghost use Rattle.grammar_model.specs.Checks.{known_of};
ghost use Rattle.parse_events.specs.declared.event.Declaration.{Declaration as Declared};
ghost use Rattle.event_checks.specs.Lists.{declared, names_of};
ghost use Rattle.event_checks.specs.Scopes.{first_fixed_in};
ghost use Rattle.event_checks.specs.FixedNames.{texts, parameters_at, parameters_in, assigns_at, assigns_in, is_target};

use crate::words::is_pseudo;
use parse_events::{Declaration, Event};
use rb_base::Memory;
use std::alloc::Global;

/// The most names of arguments and parameters that each assignment is compared with.
const MOST_NAMES: usize = 16;

/// Whether an event is an assignment.
fn is_target(event: &Event) -> bool
    ensures { result ≡ is_target event.now }
{
    match event {
        Event::Target { .. } => true,
        _ => false,
    }
}

/// Whether one of the events is an assignment.
fn has_target(events: &[Event]) -> bool
    ensures { result ≡ list_any is_target events.now }
{
    for event in events {
        if is_target(event) {
            return true;
        }
    }
    false
}

/// Puts the names of declarations at the end.
fn put_names<'t>(names: &mut Vec<&'t [u8]>, declarations: &'t [Declaration]) -> Result<(), Memory>
    ensures { OnOk result (texts names.new.items ≡ texts names.old.items ++ names_of declarations.now) }
{
    for declaration in declarations {
        names.push(declaration.name.as_slice())?;
    }
    Ok(())
}

/// Puts the names of the parameters of an event at the end.
fn put_parameters<'t>(names: &mut Vec<&'t [u8]>, event: &'t Event) -> Result<(), Memory>
    ensures { OnOk result (texts names.new.items ≡ texts names.old.items ++ parameters_at event.now) }
{
    match event {
        Event::Enter { parameters, .. } => put_names(names, parameters.as_slice()),
        _ => Ok(()),
    }
}

/// Puts the names of all parameters at the end, and says whether the names are few. Where they are not, some are left
/// out.
fn put_all_parameters<'t>(names: &mut Vec<&'t [u8]>, events: &'t [Event]) -> Result<bool, Memory>
    ensures { IfOk result (λ few. few ≡ true → texts names.new.items ≡ texts names.old.items ++ parameters_in events.now) }
{
    for event in events {
        put_parameters(names, event)?;
        if names.len() > MOST_NAMES {
            return Ok(false);
        }
    }
    Ok(true)
}

/// Whether a name is one of the names.
fn is_among(names: &[&[u8]], name: &[u8]) -> bool
    ensures { result ≡ list_any (bytes_eq name.now) (texts names.now) }
{
    for known in names {
        if name == *known {
            return true;
        }
    }
    false
}

/// Whether an event assigns a pseudo-variable or one of the names.
fn assigns_at(names: &[&[u8]], event: &Event) -> bool
    ensures { result ≡ assigns_at (texts names.now) event.now }
{
    match event {
        Event::Target { name, .. } => {
            is_pseudo(name.as_slice()) || is_among(names, name.as_slice())
        }
        _ => false,
    }
}

/// Whether one of the events assigns a pseudo-variable or one of the names.
fn assigns_in(names: &[&[u8]], events: &[Event]) -> bool
    ensures { result ≡ assigns_in (texts names.now) events.now }
{
    for event in events {
        if assigns_at(names, event) {
            return true;
        }
    }
    false
}

/// Whether a text may assign a name that cannot be assigned. Most texts assign no pseudo-variable, and nothing that has
/// the name of an argument or of a parameter of any block; then there is no need to ask what is declared where.
pub(crate) fn may_assign_fixed(
    alloc: Global,
    arguments: &[Declaration],
    events: &[Event],
) -> Result<bool, Memory>
    ensures { IfOk result (λ may. may ≡ false → (ds : List Declared) →
        first_fixed_in (record { now = known_of (declared arguments.now) (declared ds); outer = [] }) events.now ≡ None) }
{
    if !has_target(events) {
        return Ok(false);
    }
    let mut names = Vec::new(alloc);
    put_names(&mut names, arguments)?;
    if !put_all_parameters(&mut names, events)? {
        return Ok(true);
    }
    Ok(assigns_in(names.as_slice(), events))
}
