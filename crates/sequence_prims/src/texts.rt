// Strings and symbols.
ghost use Rattle.std.specs.Prelude.{◌≡◌, ◌++◌, IfOk};
ghost use Rattle.rb_base.specs.Doubling.{doubled};
ghost use Rattle.run_model.specs.Views.{string_text, symbol_text};
ghost use Rattle.run_model.specs.SequencePrimitives.{is_before, is_text_before, symbol_of_string, string_of_symbol, prints_string, prints_symbol};
ghost use Rattle.prim_calls.specs.Calls.{World, call_of};
ghost use Rattle.prim_calls.specs.Replies.{reply_of};

use prim_calls::{Call, Reply, bytes_of, string_of, symbol_of};
use rb_base::{Memory, Text};
use st_meaning::SharedText;
use std::alloc::Global;

/// Whether a text stands before another, byte by byte.
fn is_before(first: &[u8], second: &[u8]) -> bool
    ensures { result ≡ is_before first.now second.now }
{
    first < second
}

/// Whether the receiver stands before the argument.
pub fn is_text_before(call: &Call<'_>) -> Reply
    ensures { (w : World) → reply_of call.now.heap.now result ≡ is_text_before (call_of w call.now) }
{
    let Some(first) = bytes_of(call.receiver) else {
        return call.bad_argument();
    };
    let Some(second) = call.bytes(0) else {
        return call.bad_argument();
    };
    call.truth(is_before(first.as_slice(), second.as_slice()))
}

/// The symbol of a string.
pub fn symbol_of_string(call: &Call<'_>) -> Result<Reply, Memory>
    ensures { IfOk result (λ r. (w : World) → reply_of call.now.heap.now r ≡ symbol_of_string (call_of w call.now)) }
{
    let Some(text) = string_of(call.receiver) else {
        return Ok(call.bad_argument());
    };
    Ok(call.symbol(text.share()?))
}

/// The string of a symbol.
pub fn string_of_symbol(call: &Call<'_>) -> Result<Reply, Memory>
    ensures { IfOk result (λ r. (w : World) → reply_of call.now.heap.now r ≡ string_of_symbol (call_of w call.now)) }
{
    let Some(text) = symbol_of(call.receiver) else {
        return Ok(call.bad_argument());
    };
    Ok(call.string(text.share()?))
}

/// Appends the text with each quote in it doubled.
fn append_doubled(text: &mut Vec<u8>, bytes: &[u8]) -> Result<(), Memory>
    ensures { IfOk result (λ _. text.new.items ≡ text.old.items ++ doubled 39 bytes.now) }
{
    for byte in bytes {
        text.push(*byte)?;
        if *byte == b'\'' {
            text.push(*byte)?;
        }
    }
    Ok(())
}

/// A string in quotes, each quote in it doubled.
fn quoted(alloc: Global, bytes: &[u8]) -> Result<SharedText, Memory>
    ensures { IfOk result (λ text. text ≡ string_text bytes.now) }
{
    let mut text = Vec::new(alloc);
    text.push(b'\'')?;
    append_doubled(&mut text, bytes)?;
    text.push(b'\'')?;
    SharedText::new(alloc, Text::from_vec(alloc, text)?)
}

/// `#` and the bytes of a symbol.
fn marked(alloc: Global, bytes: &[u8]) -> Result<SharedText, Memory>
    ensures { IfOk result (λ text. text ≡ symbol_text bytes.now) }
{
    let mut text = Text::from_slice(alloc, b"#")?;
    text.push_slice(bytes)?;
    SharedText::new(alloc, text)
}

/// How a string is printed.
pub fn prints_string(alloc: Global, call: &Call<'_>) -> Result<Reply, Memory>
    ensures { IfOk result (λ r. (w : World) → reply_of call.now.heap.now r ≡ prints_string (call_of w call.now)) }
{
    let Some(text) = string_of(call.receiver) else {
        return Ok(call.bad_argument());
    };
    Ok(call.string(quoted(alloc, text.as_slice())?))
}

/// How a symbol is printed.
pub fn prints_symbol(alloc: Global, call: &Call<'_>) -> Result<Reply, Memory>
    ensures { IfOk result (λ r. (w : World) → reply_of call.now.heap.now r ≡ prints_symbol (call_of w call.now)) }
{
    let Some(text) = symbol_of(call.receiver) else {
        return Ok(call.bad_argument());
    };
    Ok(call.string(marked(alloc, text.as_slice())?))
}
