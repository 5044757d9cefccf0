// Parts of sequences.
ghost use Rattle.std.specs.Prelude.{◌≡◌, ◌≤◌, ◌<◌, ◌^◌, ℕ, length, slice_range, option_map, IfOk, IfSome};
ghost use Rattle.std.specs.Option.{option_copied};
ghost use Rattle.run_model.specs.SequencePrimitives.{items_between, part_of, gives_part};
ghost use Rattle.prim_calls.specs.Calls.{World, call_of, sequence_of};
ghost use Rattle.prim_calls.specs.Replies.{reply_of};
ghost use Rattle.sequence_prims.specs.Places.{bounds_of};

use prim_calls::{Call, Items, Reply, items_of};
use rb_base::Memory;
use st_meaning::{RunErrorKind, SharedText, Value, Values};
use std::alloc::Global;

/// Where a part begins and ends, in items from 0, the end not counted.
#[derive(Clone, Copy, Debug)]
struct Bounds {
    from: usize,
    to: usize,
}

/// Where the items from a number to a number, counted from 1, begin and end among so many.
fn bounds_within(length: usize, first: i64, last: i64) -> Option<Bounds>
    requires { length < 2 ^ 63 }
    ensures value { option_map (λ r. (r.from, r.to)) result ≡ bounds_of length first last }
    ensures order { IfSome result (λ r. r.from ≤ r.to) }
    ensures within { IfSome result (λ r. r.to ≤ length) }
{
    if first.checked_sub(1) == Some(last) {
        return Some(Bounds { from: 0, to: 0 });
    }
    if first < 1 || last < first || (length as i64) < last {
        return None;
    }
    Some(Bounds {
        from: (first - 1) as usize,
        to: last as usize,
    })
}

fn bytes_between(bytes: &[u8], first: i64, last: i64) -> Option<&[u8]>
    ensures { option_copied result ≡ items_between bytes.now first last }
{
    let part = bounds_within(bytes.len(), first, last)?;
    Some(&bytes[part.from..part.to])
}

fn values_between(values: &[Value], first: i64, last: i64) -> Option<&[Value]>
    ensures { option_copied result ≡ items_between values.now first last }
{
    let part = bounds_within(values.len(), first, last)?;
    Some(&values[part.from..part.to])
}

/// A part of an array, or of a string or symbol, which is a string.
fn part(
    alloc: Global,
    call: &Call<'_>,
    items: Items<'_>,
    first: i64,
    last: i64,
) -> Result<Reply, Memory>
    ensures { IfOk result (λ r. (w : World) → reply_of call.now.heap.now r ≡ part_of (call_of w call.now) (sequence_of items.entry) first last) }
{
    match items {
        Items::Bytes(bytes) => match bytes_between(bytes, first, last) {
            Some(part) => Ok(call.string(SharedText::from_slice(alloc, part)?)),
            None => Ok(Reply::fault(RunErrorKind::BadIndex)),
        },
        Items::Values(values) => match values_between(values, first, last) {
            Some(part) => Ok(call.array(Values::from_slice(alloc, part)?)),
            None => Ok(Reply::fault(RunErrorKind::BadIndex)),
        },
    }
}

/// The items from a number to a number.
pub fn gives_part(alloc: Global, call: &Call<'_>) -> Result<Reply, Memory>
    ensures { IfOk result (λ r. (w : World) → reply_of call.now.heap.now r ≡ gives_part (call_of w call.now)) }
{
    let Some(items) = items_of(call.heap, call.receiver) else {
        return Ok(call.bad_argument());
    };
    let Some(first) = call.integer(0) else {
        return Ok(call.bad_argument());
    };
    let Some(last) = call.integer(1) else {
        return Ok(call.bad_argument());
    };
    part(alloc, call, items, first, last)
}
