// Names for marks.
ghost use Rattle.std.specs.Prelude.{◌≡◌, ◌++◌, ◌∷◌, [], ℕ, List, map, IfOk, OnOk};
ghost use Rattle.event_trees.specs.Naming.{Grows};
ghost use Rattle.derivations.specs.Signs.{sign_of};
ghost use Rattle.derivations.specs.Numbered.{table_of};
ghost use Rattle.derivations.specs.Named.{first_byte, IsNameFor, IsNamedOnce, IsPutOnce, has_sign};

use crate::marking::{Marks, place_of};
use crate::marks::{Mark, is_unary};
use rb_base::{Memory, Names, Text};
use std::alloc::Global;

/// How the name of a mark begins: with a backquote, and for a unary selector with a letter, so that it is one.
fn first_text(alloc: Global, mark: &Mark) -> Result<Text, Memory>
    ensures { IfOk result (λ text. text ≡ first_byte (sign_of mark.now) ∷ []) }
{
    if is_unary(mark) {
        Text::from_slice(alloc, b"u")
    } else {
        Text::from_slice(alloc, b"`")
    }
}

/// Adds a name that was nobody's: the beginning for the mark, and zeros.
fn add_name(alloc: Global, names: &mut Names, mark: &Mark) -> Result<(), Memory>
    ensures added { OnOk result ((text : List ℕ) × IsNameFor text (sign_of mark.now) × (names.new ≡ names.old ++ text ∷ [])) }
    ensures grows { Grows names.old names.new }
{
    let mut text = first_text(alloc, mark)?;
    let most = names.len().saturating_add(1);
    for _tries in 0..most {
        text.push_slice(b"0")?;
        if names.find(text.as_slice()).is_none() {
            names.intern(text.as_slice())?;
            return Ok(());
        }
    }
    // One text more than there are names: they are not all names.
    Err(Memory)
}

/// Whether the mark is among these.
fn has_mark(marks: &[Mark], mark: &Mark) -> bool
    ensures { result ≡ has_sign (map sign_of marks.now) (sign_of mark.now) }
{
    place_of(marks, mark).is_some()
}

/// Puts a mark at the end and adds a name for it, if it is not among the marks.
fn put_once(alloc: Global, names: &mut Names, marks: &mut Marks, mark: Mark) -> Result<(), Memory>
    ensures put { OnOk result (IsPutOnce (sign_of mark) (table_of marks.old) names.old (table_of marks.new) names.new) }
    ensures grows { Grows names.old names.new }
{
    if has_mark(&marks.items, &mark) {
        return Ok(());
    }
    add_name(alloc, names, &mark)?;
    marks.items.push(mark)?;
    Ok(())
}

/// Each of the marks once, with a name that was nobody's. The names go up from the number of names that there were.
pub(crate) fn name_marks(alloc: Global, names: &mut Names, all: Vec<Mark>) -> Result<Marks, Memory>
    ensures named { IfOk result (λ marks. IsNamedOnce names.old (map sign_of all.items) (table_of marks) names.new) }
    ensures grows { Grows names.old names.new }
{
    let mut marks = Marks {
        first: names.len(),
        items: Vec::new(alloc),
    };
    for mark in all {
        put_once(alloc, names, &mut marks, mark)?;
    }
    Ok(marks)
}
