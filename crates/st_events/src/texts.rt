// The texts of literals.
ghost use Rattle.std.specs.Prelude.{◌≡◌, ◌≤◌, ◌+◌, ◌-◌, ◌*◌, ◌==◌, ◌||◌, ◌∷◌, [], ◌++◌, Bool, true, false, length, drop, codes, slice_index, slice_range, if◌then◌else◌, IfOk};
ghost use Rattle.std.specs.Str.{bytes_eq};
ghost use Rattle.std.specs.Str.Parse.{digits_value};
ghost use Rattle.grammar_model.specs.Words.{is_literal_word};
ghost use Rattle.grammar_model.specs.Lexemes.{singled, unquoted, symbol_text};

use rb_base::{Memory, Text};
use std::alloc::Global;

/// The byte of a quote.
const QUOTE: u8 = b'\'';

/// The bytes, each pair of quotes among them made one.
fn singled(alloc: Global, bytes: &[u8]) -> Result<Text, Memory>
    ensures { IfOk result (λ text. text ≡ singled 39 false bytes.now) }
{
    if !bytes.contains(&QUOTE) {
        return Text::from_slice(alloc, bytes);
    }
    let mut kept = Vec::with_capacity(alloc, bytes.len())?;
    let mut odd = false;
    for byte in bytes {
        let second = *byte == QUOTE && odd;
        if !second {
            kept.push(*byte)?;
        }
        odd = *byte == QUOTE && !odd;
    }
    Text::from_vec(alloc, kept)
}

/// The bytes between the first and the last one.
fn inside(text: &[u8]) -> &[u8]
    ensures { result.now ≡ slice_range text.now 1 (length text.now - 1) }
{
    if text.len() < 2 {
        &text[..0]
    } else {
        &text[1..text.len() - 1]
    }
}

/// What a string with these bytes holds.
pub fn unquoted(alloc: Global, text: &[u8]) -> Result<Text, Memory>
    ensures { IfOk result (λ held. held ≡ unquoted text.now) }
{
    singled(alloc, inside(text))
}

/// The bytes behind the first one.
fn behind_first(text: &[u8]) -> &[u8]
    ensures { result.now ≡ drop 1 text.now }
{
    if text.is_empty() { text } else { &text[1..] }
}

/// The byte behind the first one, or 0 where there is none.
pub fn second_byte(text: &[u8]) -> u8
    ensures { result ≡ slice_index text.now 1 }
{
    match text.get(1) {
        Some(byte) => *byte,
        None => 0,
    }
}

/// What a symbol with these bytes names.
pub fn symbol_text(alloc: Global, text: &[u8]) -> Result<Text, Memory>
    ensures { IfOk result (λ named. named ≡ symbol_text text.now) }
{
    let name = behind_first(text);
    if second_byte(text) == QUOTE {
        unquoted(alloc, name)
    } else {
        Text::from_slice(alloc, name)
    }
}

/// Whether an identifier in an array is one of `nil`, `true` and `false`.
pub fn is_literal_word(name: &[u8]) -> bool
    ensures { result ≡ is_literal_word name.now }
{
    name == b"nil".as_slice() || name == b"true".as_slice() || name == b"false".as_slice()
}
