// Names that are declared twice in one list.
ghost use Rattle.std.specs.Prelude.{◌≡◌, [], ◌∷◌, ◌++◌, List, false, Option, IfOk};
ghost use Rattle.std.specs.List.{list_any};
ghost use Rattle.std.specs.Option.{option_or};
ghost use Rattle.std.specs.Str.{bytes_eq};
ghost use Rattle.grammar_model.specs.Checks.{first_repeat, duplicate_in_statements};
ghost use Rattle.grammar_model.specs.Spanned.{Declared, SpannedStatements};
ghost use Rattle.parse_events.specs.Found.{declarations, statements_events};
ghost use Rattle.event_checks.specs.Lists.{declared, names_of};
ghost use Rattle.event_checks.specs.Duplicates.{repeat_at, first_duplicate_in};

use parse_events::{Declaration, Event};
use rb_base::{Memory, Names};
use std::alloc::Global;

/// The most names of a list that are compared with each other, without a table of them.
const FEW_NAMES: usize = 8;

/// Whether a name was among the names; else it is put at their end.
fn is_repeat(names: &mut Names, name: &[u8]) -> Result<bool, Memory>
    ensures { IfOk result (λ repeat. (repeat ≡ list_any (bytes_eq name.now) names.old) × (repeat ≡ false → names.new ≡ names.old ++ name.now ∷ [])) }
{
    let before = names.len();
    names.intern(name)?;
    Ok(names.len() == before)
}

/// The place of the first declaration of a name that is among the names or was declared before; the names up to there
/// join them.
fn repeat_among(names: &mut Names, declarations: &[Declaration]) -> Result<Option<usize>, Memory>
    ensures { IfOk result (λ repeat. (rest : List Declared) → first_repeat names.old (declared declarations.now ++ rest) ≡ option_or repeat (first_repeat names.new rest)) }
{
    for declaration in declarations {
        if is_repeat(names, declaration.name.as_slice())? {
            return Ok(Some(declaration.from as usize));
        }
    }
    Ok(None)
}

/// Whether one of the declarations has the name.
fn has_name(declarations: &[Declaration], name: &[u8]) -> bool
    ensures { result ≡ list_any (bytes_eq name.now) (names_of declarations.now) }
{
    for declaration in declarations {
        if name == declaration.name.as_slice() {
            return true;
        }
    }
    false
}

/// Whether a declaration of one of two lists has the name.
fn have_name(first: &[Declaration], second: &[Declaration], name: &[u8]) -> bool
    ensures { result ≡ list_any (bytes_eq name.now) (names_of first.now ++ names_of second.now) }
{
    has_name(first, name) || has_name(second, name)
}

/// The place of the first declaration of the second list whose name stands before it, in the first list or in its own.
/// Each is compared with all that stand before it.
fn repeat_behind(first: &[Declaration], second: &[Declaration]) -> Option<usize>
    ensures { (rest : List Declared) → first_repeat (names_of first.now) (declared second.now ++ rest) ≡ option_or result (first_repeat (names_of first.now ++ names_of second.now) rest) }
{
    for (index, declaration) in second.iter().enumerate() {
        if have_name(first, &second[..index], declaration.name.as_slice()) {
            return Some(declaration.from as usize);
        }
    }
    None
}

/// The place of the first declaration of a name that was declared before, in one list of two parts that declares few
/// names.
fn repeat_in_few(first: &[Declaration], second: &[Declaration]) -> Option<usize>
    ensures { result ≡ first_repeat [] (declared first.now ++ declared second.now) }
{
    let repeat = repeat_behind(&[], first);
    if repeat.is_some() {
        return repeat;
    }
    repeat_behind(first, second)
}

/// The place of the first declaration of a name that was declared before, in one list of two parts.
fn repeat_in(
    alloc: Global,
    first: &[Declaration],
    second: &[Declaration],
) -> Result<Option<usize>, Memory>
    ensures { IfOk result (λ repeat. repeat ≡ first_repeat [] (declared first.now ++ declared second.now)) }
{
    if first.len().saturating_add(second.len()) <= FEW_NAMES {
        return Ok(repeat_in_few(first, second));
    }
    let mut names = Names::new(alloc);
    let repeat = repeat_among(&mut names, first)?;
    if repeat.is_some() {
        return Ok(repeat);
    }
    repeat_among(&mut names, second)
}

/// The place of the first name that an event declares twice.
fn repeat_at(alloc: Global, event: &Event) -> Result<Option<usize>, Memory>
    ensures { IfOk result (λ repeat. repeat ≡ repeat_at event.now) }
{
    match event {
        Event::Enter {
            parameters,
            temporaries,
        } => repeat_in(alloc, parameters.as_slice(), temporaries.as_slice()),
        _ => Ok(None),
    }
}

/// The place of the first name that one of the events declares twice.
fn repeat_in_events(alloc: Global, events: &[Event]) -> Result<Option<usize>, Memory>
    ensures { IfOk result (λ repeat. repeat ≡ first_duplicate_in events.now) }
{
    for event in events {
        let repeat = repeat_at(alloc, event)?;
        if repeat.is_some() {
            return Ok(repeat);
        }
    }
    Ok(None)
}

/// The place of the first declaration, in the order of the text, of a name that its list declared before. The arguments
/// and the outermost temporaries are one list, and so are the parameters and temporaries of each block.
pub(crate) fn first_duplicate(
    alloc: Global,
    arguments: &[Declaration],
    temporaries: &[Declaration],
    events: &[Event],
) -> Result<Option<usize>, Memory>
    ensures { IfOk result (λ repeat. (ps ds : List Declared) (ss : SpannedStatements) → arguments.now ≡ declarations ps → temporaries.now ≡ declarations ds → events.now ≡ statements_events ss →
        repeat ≡ option_or (first_repeat [] (ps ++ ds)) (duplicate_in_statements ss)) }
{
    let repeat = repeat_in(alloc, arguments, temporaries)?;
    if repeat.is_some() {
        return Ok(repeat);
    }
    repeat_in_events(alloc, events)
}
