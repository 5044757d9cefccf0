// The primitives of `Transcript`.
ghost use Rattle.std.specs.Prelude.{◌≡◌, IfOk};
ghost use Rattle.run_model.specs.ObjectPrimitives.{printed_length, shows, prints};
ghost use Rattle.prim_calls.specs.Calls.{World, call_of};
ghost use Rattle.prim_calls.specs.Replies.{reply_of};

use prim_calls::{Call, Change, Reply, is_transcript};
use rb_base::Memory;
use st_meaning::{Event, Heap, Value, ValueKind};

/// The bytes of a string or symbol are shown.
pub fn shows(call: &Call<'_>) -> Result<Reply, Memory>
    ensures { IfOk result (λ r. (w : World) → reply_of call.now.heap.now r ≡ shows (call_of w call.now)) }
{
    if !is_transcript(call.receiver) {
        return Ok(call.bad_argument());
    }
    let Some(text) = call.bytes(0) else {
        return Ok(call.bad_argument());
    };
    Ok(Reply::Answers {
        ticks: text.len(),
        told: Some(Event::shown(text.share()?)),
        value: call.receiver.share()?,
        change: Change::Nothing,
    })
}

/// How many ticks printing a value wants: the length of a string, symbol or array.
fn printed_length(heap: &Heap, value: &Value) -> usize
    ensures { result ≡ printed_length heap.now value.now }
{
    match &value.kind {
        ValueKind::Str(text) | ValueKind::Sym(text) => text.len(),
        ValueKind::Array(number) => heap.elements(*number).len(),
        _ => 0,
    }
}

/// The view of the argument is printed.
pub fn prints(call: &Call<'_>) -> Result<Reply, Memory>
    ensures { IfOk result (λ r. (w : World) → reply_of call.now.heap.now r ≡ prints (call_of w call.now)) }
{
    if !is_transcript(call.receiver) {
        return Ok(call.bad_argument());
    }
    let argument = call.argument(0)?;
    Ok(Reply::Answers {
        ticks: printed_length(call.heap, &argument),
        told: Some(Event::printed(call.heap.view_of(&argument)?)),
        value: call.receiver.share()?,
        change: Change::Nothing,
    })
}
