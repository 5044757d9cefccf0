// Words behind blanks, and numbers.
ghost use Rattle.std.specs.Prelude.{◌≡◌, [], ◌∷◌, ◌++◌, List, ℕ, codes, flat_map, OnOk};
ghost use Rattle.std.specs.Borrow.{Bor};
ghost use Rattle.std.specs.Fmt.{decimal};
ghost use Rattle.rb_base.specs.Names.{name_at};
ghost use Rattle.text_model.specs.Pieces.{pieces_behind};
ghost use Rattle.command_numbers.specs.MappedCommands.{map_spot};
ghost use Rattle.commands.specs.Views.{spot_of};
ghost use Rattle.apply_model.specs.Lines.{method_words, part_words, spot_words};
ghost use Rattle.refusal_lines.specs.Begun.{BeginsWith};

use commands::{MethodName, MethodPart, Spot};
use itoa::Buffer;
use rb_base::{Memory, NameId, Names, Text};

/// The text of a number, and the empty text where the table has no such number.
fn text_of(names: &Names, name: NameId) -> &[u8]
    ensures { result.now ≡ name_at names.now name }
{
    if name.0 < names.len() {
        names.text_of(name)
    } else {
        &[]
    }
}

/// Appends the words, each behind a blank.
fn push_words(words: &[&[u8]], out: &mut Text) -> Result<(), Memory>
    ensures told { OnOk result (out.new ≡ out.old ++ flat_map (λ (w : Bor (List ℕ)). codes " " ++ w.now) words.now) }
    ensures begins { BeginsWith out.new out.old }
{
    for word in words {
        out.push_slice(b" ")?;
        out.push_slice(word)?;
    }
    Ok(())
}

/// Appends the number of a condition and its name.
pub(crate) fn push_title(number: &[u8], title: &[u8], out: &mut Text) -> Result<(), Memory>
    ensures told { OnOk result (out.new ≡ out.old ++ pieces_behind (codes " ") (number.now ∷ title.now ∷ [])) }
    ensures begins { BeginsWith out.new out.old }
{
    push_words(&[number, title], out)
}

/// The same of a condition on a name.
pub(crate) fn push_named(
    number: &[u8],
    title: &[u8],
    name: NameId,
    names: &Names,
    out: &mut Text,
) -> Result<(), Memory>
    ensures told { OnOk result (out.new ≡ out.old ++ pieces_behind (codes " ") (number.now ∷ title.now ∷ name_at names.now name ∷ [])) }
    ensures begins { BeginsWith out.new out.old }
{
    push_words(&[number, title, text_of(names, name)], out)
}

/// The same of a condition on a selector and a number.
pub(crate) fn push_counted(
    number: &[u8],
    title: &[u8],
    selector: NameId,
    count: usize,
    names: &Names,
    out: &mut Text,
) -> Result<(), Memory>
    ensures told { OnOk result (out.new ≡ out.old ++ pieces_behind (codes " ") (number.now ∷ title.now ∷ name_at names.now selector ∷ decimal count ∷ [])) }
    ensures begins { BeginsWith out.new out.old }
{
    push_named(number, title, selector, names, out)?;
    out.push_slice(b" ")?;
    push_number(count, out)
}

/// The same of a condition on two names.
pub(crate) fn push_pair(
    number: &[u8],
    title: &[u8],
    first: NameId,
    second: NameId,
    names: &Names,
    out: &mut Text,
) -> Result<(), Memory>
    ensures told { OnOk result (out.new ≡ out.old ++ pieces_behind (codes " ") (number.now ∷ title.now ∷ name_at names.now first ∷ name_at names.now second ∷ [])) }
    ensures begins { BeginsWith out.new out.old }
{
    push_words(
        &[number, title, text_of(names, first), text_of(names, second)],
        out,
    )
}

/// The same of a condition on a method.
pub(crate) fn push_method(
    number: &[u8],
    title: &[u8],
    method: MethodName,
    names: &Names,
    out: &mut Text,
) -> Result<(), Memory>
    ensures told { OnOk result (out.new ≡ out.old ++ pieces_behind (codes " ") (number.now ∷ title.now ∷ method_words (name_at names.now method.class) method.meta (name_at names.now method.selector))) }
    ensures begins { BeginsWith out.new out.old }
{
    let side: &[u8] = if method.meta { b"class" } else { b"instance" };
    push_words(
        &[
            number,
            title,
            text_of(names, method.class),
            side,
            text_of(names, method.selector),
        ],
        out,
    )
}

/// The same of a condition on a method and a name.
pub(crate) fn push_local(
    number: &[u8],
    title: &[u8],
    method: MethodName,
    name: NameId,
    names: &Names,
    out: &mut Text,
) -> Result<(), Memory>
    ensures told { OnOk result (out.new ≡ out.old ++ pieces_behind (codes " ") (number.now ∷ title.now ∷ method_words (name_at names.now method.class) method.meta (name_at names.now method.selector) ++ name_at names.now name ∷ [])) }
    ensures begins { BeginsWith out.new out.old }
{
    push_method(number, title, method, names, out)?;
    push_words(&[text_of(names, name)], out)
}

/// The same of a condition on a part of a method.
pub(crate) fn push_part(
    number: &[u8],
    title: &[u8],
    part: MethodPart,
    names: &Names,
    out: &mut Text,
) -> Result<(), Memory>
    ensures told { OnOk result (out.new ≡ out.old ++ pieces_behind (codes " ") (number.now ∷ title.now ∷ part_words (name_at names.now part.method.class) part.method.meta (name_at names.now part.method.selector) part.from part.to)) }
    ensures begins { BeginsWith out.new out.old }
{
    push_method(number, title, part.method, names, out)?;
    let mut from = Buffer::new();
    let mut to = Buffer::new();
    push_words(
        &[
            from.format(part.from).as_bytes(),
            to.format(part.to).as_bytes(),
        ],
        out,
    )
}

/// The same of a condition on a place in a method.
pub(crate) fn push_spot(
    number: &[u8],
    title: &[u8],
    method: MethodName,
    spot: Spot,
    names: &Names,
    out: &mut Text,
) -> Result<(), Memory>
    ensures told { OnOk result (out.new ≡ out.old ++ pieces_behind (codes " ") (number.now ∷ title.now ∷ spot_words (name_at names.now method.class) method.meta (name_at names.now method.selector) (map_spot (name_at names.now) (spot_of spot)))) }
    ensures begins { BeginsWith out.new out.old }
{
    match spot {
        Spot::Part { from, to } => {
            push_part(number, title, MethodPart { method, from, to }, names, out)
        }
        Spot::Name(name) => push_local(number, title, method, name, names, out),
    }
}

/// Appends a number in decimal.
pub(crate) fn push_number(number: usize, out: &mut Text) -> Result<(), Memory>
    ensures told { OnOk result (out.new ≡ out.old ++ decimal number) }
    ensures begins { BeginsWith out.new out.old }
{
    let mut buffer = Buffer::new();
    out.push_slice(buffer.format(number).as_bytes())
}
