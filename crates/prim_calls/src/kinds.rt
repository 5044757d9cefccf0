// The kinds of values.
ghost use Rattle.std.specs.Prelude.{◌≡◌, length, option_map};
ghost use Rattle.std.specs.Option.{option_copied};
ghost use Rattle.run_model.specs.Calls.{as_integer, as_char, as_string, as_symbol, as_bytes, as_class, as_array, as_closure, as_sequence};
ghost use Rattle.prim_calls.specs.Calls.{is_transcript, sequence_of};

use st_meaning::{Heap, SharedText, Value, ValueKind};

/// The items of a string, a symbol or an array. Contracts see a `Sequence` of runs.
#[derive(Clone, Copy)]
pub enum Items<'a> {
    /// The bytes of a string or symbol.
    Bytes(&'a [u8]),
    /// The elements of an array.
    Values(&'a [Value]),
}

/// The integer that a value is.
pub fn integer_of(value: &Value) -> Option<i64>
    ensures { result ≡ as_integer value.now }
{
    match &value.kind {
        ValueKind::Int(number) => Some(*number),
        _ => None,
    }
}

/// The byte of a character.
pub fn byte_of(value: &Value) -> Option<u8>
    ensures { result ≡ as_char value.now }
{
    match &value.kind {
        ValueKind::Char(byte) => Some(*byte),
        _ => None,
    }
}

/// The bytes of a string.
pub fn string_of(value: &Value) -> Option<&SharedText>
    ensures { option_copied result ≡ as_string value.now }
{
    match &value.kind {
        ValueKind::Str(text) => Some(text),
        _ => None,
    }
}

/// The bytes of a symbol.
pub fn symbol_of(value: &Value) -> Option<&SharedText>
    ensures { option_copied result ≡ as_symbol value.now }
{
    match &value.kind {
        ValueKind::Sym(text) => Some(text),
        _ => None,
    }
}

/// The bytes of a string or symbol.
pub fn bytes_of(value: &Value) -> Option<&SharedText>
    ensures { option_copied result ≡ as_bytes value.now }
{
    match &value.kind {
        ValueKind::Str(text) | ValueKind::Sym(text) => Some(text),
        _ => None,
    }
}

/// The name of a class.
pub fn class_of(value: &Value) -> Option<&SharedText>
    ensures { option_copied result ≡ as_class value.now }
{
    match &value.kind {
        ValueKind::Class(name) => Some(name),
        _ => None,
    }
}

/// The number of an array in the heap.
pub fn array_number(value: &Value) -> Option<usize>
    ensures { result ≡ as_array value.now }
{
    match &value.kind {
        ValueKind::Array(number) => Some(*number),
        _ => None,
    }
}

/// The number of a closure in the store.
pub fn closure_number(value: &Value) -> Option<usize>
    ensures { result ≡ as_closure value.now }
{
    match &value.kind {
        ValueKind::Closure(number) => Some(*number),
        _ => None,
    }
}

/// Whether a value is `Transcript`.
pub fn is_transcript(value: &Value) -> bool
    ensures { result ≡ is_transcript value.now }
{
    matches!(&value.kind, ValueKind::Transcript)
}

/// The items of a string, a symbol or an array.
pub fn items_of<'a>(heap: &'a Heap, value: &'a Value) -> Option<Items<'a>>
    ensures { option_map sequence_of result ≡ as_sequence heap.now value.now }
{
    match &value.kind {
        ValueKind::Str(text) | ValueKind::Sym(text) => Some(Items::Bytes(text.as_slice())),
        ValueKind::Array(number) => Some(Items::Values(heap.elements(*number))),
        _ => None,
    }
}
