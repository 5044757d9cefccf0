// The primitives of characters, and of one integer.
ghost use Rattle.std.specs.Prelude.{◌≡◌, IfOk};
ghost use Rattle.run_model.specs.IntegerPrimitives.{prints_integer, gives_character, gives_byte, string_of_character, prints_character, byte_of};
ghost use Rattle.prim_calls.specs.Calls.{World, call_of};
ghost use Rattle.prim_calls.specs.Replies.{reply_of};

use prim_calls::{Call, Reply, byte_of, integer_of};
use rb_base::Memory;
use st_meaning::{SharedText, Value, ValueKind};
use std::alloc::Global;

/// The decimal digits of an integer, behind a minus sign where it is negative.
pub fn prints_integer(alloc: Global, call: &Call<'_>) -> Result<Reply, Memory>
    ensures { IfOk result (λ r. (w : World) → reply_of call.now.heap.now r ≡ prints_integer (call_of w call.now)) }
{
    let Some(number) = integer_of(call.receiver) else {
        return Ok(call.bad_argument());
    };
    let digits = format!(in alloc; "{number}")?;
    Ok(call.string(SharedText::from_slice(alloc, digits.as_bytes())?))
}

/// The integer as a byte.
fn as_byte(number: i64) -> Option<u8>
    ensures { result ≡ byte_of number }
{
    match u8::try_from(number) {
        Ok(byte) => Some(byte),
        Err(_) => None,
    }
}

/// The character of an integer from 0 to 255.
pub fn gives_character(call: &Call<'_>) -> Reply
    ensures { (w : World) → reply_of call.now.heap.now result ≡ gives_character (call_of w call.now) }
{
    let Some(number) = integer_of(call.receiver) else {
        return call.bad_argument();
    };
    let Some(byte) = as_byte(number) else {
        return call.bad_argument();
    };
    Reply::at_once(Value::new(ValueKind::Char(byte)))
}

/// The byte of a character as an integer.
pub fn gives_byte(call: &Call<'_>) -> Reply
    ensures { (w : World) → reply_of call.now.heap.now result ≡ gives_byte (call_of w call.now) }
{
    let Some(byte) = byte_of(call.receiver) else {
        return call.bad_argument();
    };
    Reply::at_once(Value::new(ValueKind::Int(byte as i64)))
}

/// The string of a character alone.
pub fn string_of_character(alloc: Global, call: &Call<'_>) -> Result<Reply, Memory>
    ensures { IfOk result (λ r. (w : World) → reply_of call.now.heap.now r ≡ string_of_character (call_of w call.now)) }
{
    let Some(byte) = byte_of(call.receiver) else {
        return Ok(call.bad_argument());
    };
    Ok(call.string(SharedText::from_slice(alloc, &[byte])?))
}

/// How a character is printed: `$` and its byte.
pub fn prints_character(alloc: Global, call: &Call<'_>) -> Result<Reply, Memory>
    ensures { IfOk result (λ r. (w : World) → reply_of call.now.heap.now r ≡ prints_character (call_of w call.now)) }
{
    let Some(byte) = byte_of(call.receiver) else {
        return Ok(call.bad_argument());
    };
    Ok(call.string(SharedText::from_slice(alloc, &[b'$', byte])?))
}
