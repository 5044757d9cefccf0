// Lengths, items, and new arrays.
ghost use Rattle.std.specs.Prelude.{◌≡◌, option_map, IfOk};
ghost use Rattle.std.specs.Option.{option_copied, is_some};
ghost use Rattle.run_model.specs.SequencePrimitives.{place_of, item_at, items_count, value_at, gives_length, gives_item, stores_item, as_array_class, gives_array};
ghost use Rattle.prim_calls.specs.Calls.{World, call_of, sequence_of};
ghost use Rattle.prim_calls.specs.Replies.{reply_of};
ghost use Rattle.sequence_prims.specs.Places.{place_at};

use prim_calls::{Call, Change, Items, Reply, array_number, class_of, items_of};
use rb_base::Memory;
use st_meaning::{RunErrorKind, Value, ValueKind, Values, same_text};
use std::alloc::Global;

/// The place of the item of a number, counted from 1.
fn place(number: i64) -> Option<usize>
    ensures { result ≡ place_at number }
{
    if number < 1 {
        None
    } else {
        Some((number - 1) as usize)
    }
}

fn count(items: &Items<'_>) -> usize
    ensures { result ≡ items_count (sequence_of items.now) }
{
    match items {
        Items::Bytes(bytes) => bytes.len(),
        Items::Values(values) => values.len(),
    }
}

/// How long the receiver is.
pub fn gives_length(call: &Call<'_>) -> Reply
    ensures { (w : World) → reply_of call.now.heap.now result ≡ gives_length (call_of w call.now) }
{
    let Some(items) = items_of(call.heap, call.receiver) else {
        return call.bad_argument();
    };
    Reply::at_once(Value::new(ValueKind::Int(count(&items) as i64)))
}

fn byte_at(bytes: &[u8], number: i64) -> Option<u8>
    ensures { result ≡ item_at bytes.now number }
{
    let at = place(number)?;
    bytes.get(at).copied()
}

fn element_at(values: &[Value], number: i64) -> Option<&Value>
    ensures { option_copied result ≡ item_at values.now number }
{
    let at = place(number)?;
    values.get(at)
}

/// An item as a value, if it is there: a byte of a string or symbol is a character.
fn value_at(items: &Items<'_>, number: i64) -> Result<Option<Value>, Memory>
    ensures { IfOk result (λ value. value ≡ value_at (sequence_of items.now) number) }
{
    match items {
        Items::Bytes(bytes) => match byte_at(bytes, number) {
            Some(byte) => Ok(Some(Value::new(ValueKind::Char(byte)))),
            None => Ok(None),
        },
        Items::Values(values) => match element_at(values, number) {
            Some(value) => Ok(Some(value.share()?)),
            None => Ok(None),
        },
    }
}

/// The item of a number.
pub fn gives_item(call: &Call<'_>) -> Result<Reply, Memory>
    ensures { IfOk result (λ r. (w : World) → reply_of call.now.heap.now r ≡ gives_item (call_of w call.now)) }
{
    let Some(items) = items_of(call.heap, call.receiver) else {
        return Ok(call.bad_argument());
    };
    let Some(number) = call.integer(0) else {
        return Ok(call.bad_argument());
    };
    match value_at(&items, number)? {
        Some(value) => Ok(Reply::at_once(value)),
        None => Ok(Reply::fault(RunErrorKind::BadIndex)),
    }
}

/// The place of the item of a number, if it is there.
fn place_within(values: &[Value], number: i64) -> Option<usize>
    ensures { result ≡ option_map (λ v. place_of number) (item_at values.now number) }
{
    match place(number) {
        Some(at) if at < values.len() => Some(at),
        _ => None,
    }
}

/// The item of a number is stored and answered.
pub fn stores_item(call: &Call<'_>) -> Result<Reply, Memory>
    ensures { IfOk result (λ r. (w : World) → reply_of call.now.heap.now r ≡ stores_item (call_of w call.now)) }
{
    let Some(array) = array_number(call.receiver) else {
        return Ok(call.bad_argument());
    };
    let Some(number) = call.integer(0) else {
        return Ok(call.bad_argument());
    };
    let Some(at) = place_within(call.heap.elements(array), number) else {
        return Ok(Reply::fault(RunErrorKind::BadIndex));
    };
    let value = call.argument(1)?;
    Ok(Reply::Answers {
        ticks: 0,
        told: None,
        value: value.share()?,
        change: Change::Element { array, at, value },
    })
}

fn is_array_class(value: &Value) -> bool
    ensures { result ≡ is_some (as_array_class value.now) }
{
    match class_of(value) {
        Some(name) => same_text(name.as_slice(), b"Array"),
        None => false,
    }
}

/// An array of so many nils.
pub fn gives_array(alloc: Global, call: &Call<'_>) -> Result<Reply, Memory>
    ensures { IfOk result (λ r. (w : World) → reply_of call.now.heap.now r ≡ gives_array (call_of w call.now)) }
{
    if !is_array_class(call.receiver) {
        return Ok(call.bad_argument());
    }
    let Some(length) = call.integer(0) else {
        return Ok(call.bad_argument());
    };
    if length < 0 {
        return Ok(call.bad_argument());
    }
    if 65_535 < length {
        return Ok(Reply::fault(RunErrorKind::TooLong));
    }
    Ok(call.array(Values::nils(alloc, length as usize)?))
}
