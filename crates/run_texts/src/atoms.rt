// The texts of values.
ghost use Rattle.std.specs.Prelude.{◌≡◌, ◌++◌, codes, flat_map, OnOk};
ghost use Rattle.std.specs.List.{join_by};
ghost use Rattle.std.specs.Fmt.{decimal, signed_decimal};
ghost use Rattle.rb_base.specs.Doubling.{doubled};
ghost use Rattle.run_model.specs.Views.{string_text, symbol_text, char_text, atom_text, view_text};
ghost use Rattle.run_texts.specs.Behind.{atoms_behind};

use rb_base::{Memory, Text};
use st_meaning::{Atom, AtomKind, View, ViewKind};
use std::alloc::Global;

/// The quote round a string, which stands twice inside one.
const QUOTE: u8 = b'\'';

/// Appends a number in decimal.
fn write_number(alloc: Global, number: usize, out: &mut Text) -> Result<(), Memory>
    ensures { OnOk result (out.new ≡ out.old ++ decimal number) }
{
    let digits = format!(in alloc; "{number}")?;
    out.push_slice(digits.as_bytes())
}

/// Appends an integer in decimal, behind a minus sign where it is negative.
fn write_integer(alloc: Global, number: i64, out: &mut Text) -> Result<(), Memory>
    ensures { OnOk result (out.new ≡ out.old ++ signed_decimal number) }
{
    let digits = format!(in alloc; "{number}")?;
    out.push_slice(digits.as_bytes())
}

/// Appends the bytes with each quote written twice.
fn write_doubled(text: &[u8], out: &mut Text) -> Result<(), Memory>
    ensures { OnOk result (out.new ≡ out.old ++ doubled 39 text.now) }
{
    for byte in text {
        if *byte == QUOTE {
            out.push_slice(b"''")?;
        } else {
            out.push_slice(&[*byte])?;
        }
    }
    Ok(())
}

/// Appends a string in quotes, each quote in it doubled.
fn write_string(text: &[u8], out: &mut Text) -> Result<(), Memory>
    ensures { OnOk result (out.new ≡ out.old ++ string_text text.now) }
{
    out.push_slice(b"'")?;
    write_doubled(text, out)?;
    out.push_slice(b"'")
}

/// Appends two texts, one behind the other.
pub(crate) fn write_pair(mark: &[u8], text: &[u8], out: &mut Text) -> Result<(), Memory>
    ensures { OnOk result (out.new ≡ out.old ++ (mark.now ++ text.now)) }
{
    out.push_slice(mark)?;
    out.push_slice(text)
}

/// Appends a text and a number in decimal, one behind the other.
pub(crate) fn write_numbered(
    alloc: Global,
    mark: &[u8],
    number: usize,
    out: &mut Text,
) -> Result<(), Memory>
    ensures { OnOk result (out.new ≡ out.old ++ (mark.now ++ decimal number)) }
{
    out.push_slice(mark)?;
    write_number(alloc, number, out)
}

/// Appends how a value is printed that stands inside an array (Goldberg and Robson 1983): a string in quotes, each
/// quote in it doubled; a symbol behind `#`; a character behind `$`; an object by its class, and an array by its length.
pub(crate) fn write_atom(alloc: Global, atom: &Atom, out: &mut Text) -> Result<(), Memory>
    ensures { OnOk result (out.new ≡ out.old ++ atom_text atom.now) }
{
    match &atom.kind {
        AtomKind::Nil => out.push_slice(b"nil"),
        AtomKind::True => out.push_slice(b"true"),
        AtomKind::False => out.push_slice(b"false"),
        AtomKind::Int(number) => write_integer(alloc, *number, out),
        AtomKind::Char(byte) => write_pair(b"$", &[*byte], out),
        AtomKind::Str(text) => write_string(text.as_slice(), out),
        AtomKind::Sym(text) => write_pair(b"#", text.as_slice(), out),
        AtomKind::Class(name) => out.push_slice(name.as_slice()),
        AtomKind::Object(class) => write_pair(b"an instance of ", class.as_slice(), out),
        AtomKind::Array(length) => write_numbered(alloc, b"an Array of ", *length, out),
        AtomKind::Block => out.push_slice(b"a block"),
        AtomKind::Transcript => out.push_slice(b"Transcript"),
    }
}

/// Appends the texts of elements, each behind a blank.
fn write_further_atoms(alloc: Global, atoms: &[Atom], out: &mut Text) -> Result<(), Memory>
    ensures { OnOk result (out.new ≡ out.old ++ atoms_behind atoms.now) }
{
    for atom in atoms {
        out.push_slice(b" ")?;
        write_atom(alloc, atom, out)?;
    }
    Ok(())
}

/// Appends the texts of elements, with one blank between them.
fn write_joined_atoms(alloc: Global, atoms: &[Atom], out: &mut Text) -> Result<(), Memory>
    ensures { OnOk result (out.new ≡ out.old ++ join_by atom_text (codes " ") atoms.now) }
{
    if let Some((first, others)) = atoms.split_first() {
        write_atom(alloc, first, out)?;
        write_further_atoms(alloc, others, out)?;
    }
    Ok(())
}

/// Appends the elements of an array in parentheses.
fn write_items(alloc: Global, atoms: &[Atom], out: &mut Text) -> Result<(), Memory>
    ensures { OnOk result (out.new ≡ out.old ++ (codes "(" ++ join_by atom_text (codes " ") atoms.now ++ codes ")")) }
{
    out.push_slice(b"(")?;
    write_joined_atoms(alloc, atoms, out)?;
    out.push_slice(b")")
}

/// Appends how a value is printed: an array by its elements, in parentheses with one blank between them.
pub(crate) fn write_view(alloc: Global, view: &View, out: &mut Text) -> Result<(), Memory>
    ensures { OnOk result (out.new ≡ out.old ++ view_text view.now) }
{
    match &view.kind {
        ViewKind::One(atom) => write_atom(alloc, atom, out),
        ViewKind::Items(atoms) => write_items(alloc, atoms.as_slice(), out),
    }
}
