// Sequences that are joined.
ghost use Rattle.std.specs.Prelude.{◌≡◌, ◌++◌, IfOk};
ghost use Rattle.run_model.specs.SequencePrimitives.{joins, joined};
ghost use Rattle.prim_calls.specs.Calls.{World, call_of, sequence_of};
ghost use Rattle.prim_calls.specs.Replies.{reply_of};

use prim_calls::{Call, Items, Reply, items_of};
use rb_base::{Memory, Text};
use st_meaning::{SharedText, Value, Values};
use std::alloc::Global;

fn joined_bytes(alloc: Global, first: &[u8], second: &[u8]) -> Result<SharedText, Memory>
    ensures { IfOk result (λ text. text ≡ first.now ++ second.now) }
{
    let mut text = Text::from_slice(alloc, first)?;
    text.push_slice(second)?;
    SharedText::new(alloc, text)
}

fn joined_values(alloc: Global, first: &[Value], second: &[Value]) -> Result<Values, Memory>
    ensures { IfOk result (λ values. values ≡ first.now ++ second.now) }
{
    let mut values = Values::from_slice(alloc, first)?;
    values.push_slice(second)?;
    Ok(values)
}

/// Both joined: two arrays, or two of strings and symbols, which give a string.
fn joined(
    alloc: Global,
    call: &Call<'_>,
    first: Items<'_>,
    second: Items<'_>,
) -> Result<Reply, Memory>
    ensures { IfOk result (λ r. (w : World) → reply_of call.now.heap.now r ≡ joined (call_of w call.now) (sequence_of first.entry) (sequence_of second.entry)) }
{
    match (first, second) {
        (Items::Bytes(a), Items::Bytes(b)) => Ok(call.string(joined_bytes(alloc, a, b)?)),
        (Items::Values(a), Items::Values(b)) => Ok(call.array(joined_values(alloc, a, b)?)),
        (Items::Bytes(_), Items::Values(_)) => Ok(call.bad_argument()),
        (Items::Values(_), Items::Bytes(_)) => Ok(call.bad_argument()),
    }
}

/// Receiver and argument joined.
pub fn joins(alloc: Global, call: &Call<'_>) -> Result<Reply, Memory>
    ensures { IfOk result (λ r. (w : World) → reply_of call.now.heap.now r ≡ joins (call_of w call.now)) }
{
    let Some(first) = items_of(call.heap, call.receiver) else {
        return Ok(call.bad_argument());
    };
    let Some(second) = call.items(0) else {
        return Ok(call.bad_argument());
    };
    joined(alloc, call, first, second)
}
