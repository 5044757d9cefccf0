// The primitives of two integers.
ghost use Rattle.std.specs.Prelude.{◌≡◌, false, if◌then◌else◌};
ghost use Rattle.run_model.specs.Values.{unsupported};
ghost use Rattle.run_model.specs.Numbers.{is_zero, floor_quotient, floor_remainder};
ghost use Rattle.run_model.specs.Calls.{faults, answers_integer};
ghost use Rattle.run_model.specs.IntegerPrimitives.{two_integers, divisor};
ghost use Rattle.prim_calls.specs.Calls.{World, call_of};
ghost use Rattle.prim_calls.specs.Replies.{reply_of};
ghost use Rattle.integer_prims.specs.Operations.{applied};

use prim_calls::{Call, Reply, integer_of};
use prim_numbers::{difference, floor_quotient, floor_remainder, product, shifted, sum};
use st_meaning::{RunErrorKind, Value, ValueKind};

/// An operation on two integers.
#[derive(Clone, Copy, Debug)]
pub enum Operation {
    Add,
    Subtract,
    Multiply,
    /// The quotient rounded down.
    DivideDown,
    /// What is left by the quotient rounded down.
    Remainder,
    /// The quotient where it is whole.
    DivideExactly,
    /// Whether the first is less.
    Less,
    /// The bits of two's complement that are set in both.
    BitsInBoth,
    /// The bits of two's complement that are set in one or both.
    BitsInAny,
    /// Times 2 to the power of the second, rounded down.
    Shift,
}

fn quotient(call: &Call<'_>, x: i64, y: i64) -> Reply
    ensures { (w : World) → reply_of call.now.heap.now result ≡ divisor y (answers_integer (call_of w call.now) (floor_quotient x y)) }
{
    if y == 0 {
        return Reply::fault(RunErrorKind::DivideByZero);
    }
    call.fitted(floor_quotient(x, y))
}

fn remainder(call: &Call<'_>, x: i64, y: i64) -> Reply
    ensures { (w : World) → reply_of call.now.heap.now result ≡ divisor y (answers_integer (call_of w call.now) (floor_remainder x y)) }
{
    if y == 0 {
        return Reply::fault(RunErrorKind::DivideByZero);
    }
    call.fitted(floor_remainder(x, y))
}

/// Whether the quotient of two integers is whole.
fn leaves_nothing(x: i64, y: i64) -> bool
    requires { is_zero y ≡ false }
    ensures { result ≡ is_zero (floor_remainder x y) }
{
    match floor_remainder(x, y) {
        Some(rest) => rest == 0,
        None => false,
    }
}

fn whole_quotient(call: &Call<'_>, x: i64, y: i64) -> Reply
    ensures { (w : World) → reply_of call.now.heap.now result ≡ divisor y (if is_zero (floor_remainder x y) then answers_integer (call_of w call.now) (floor_quotient x y) else faults unsupported) }
{
    if y == 0 {
        return Reply::fault(RunErrorKind::DivideByZero);
    }
    if leaves_nothing(x, y) {
        call.fitted(floor_quotient(x, y))
    } else {
        Reply::fault(RunErrorKind::Unsupported)
    }
}

fn apply(call: &Call<'_>, operation: Operation, x: i64, y: i64) -> Reply
    ensures { (w : World) → reply_of call.now.heap.now result ≡ applied operation (call_of w call.now) x y }
{
    match operation {
        Operation::Add => call.fitted(sum(x, y)),
        Operation::Subtract => call.fitted(difference(x, y)),
        Operation::Multiply => call.fitted(product(x, y)),
        Operation::DivideDown => quotient(call, x, y),
        Operation::Remainder => remainder(call, x, y),
        Operation::DivideExactly => whole_quotient(call, x, y),
        Operation::Less => call.truth(x < y),
        Operation::BitsInBoth => Reply::at_once(Value::new(ValueKind::Int(x & y))),
        Operation::BitsInAny => Reply::at_once(Value::new(ValueKind::Int(x | y))),
        Operation::Shift => call.fitted(shifted(x, y)),
    }
}

/// The primitive of an operation: a receiver or argument that is no integer is of the wrong kind; a divisor of 0, a
/// quotient that is not whole and a result that is none of 64 bits are faults.
pub fn on_integers(call: &Call<'_>, operation: Operation) -> Reply
    ensures { (w : World) → reply_of call.now.heap.now result ≡ two_integers (call_of w call.now) (applied operation (call_of w call.now)) }
{
    match integer_of(call.receiver) {
        None => call.bad_argument(),
        Some(x) => match call.integer(0) {
            None => call.bad_argument(),
            Some(y) => apply(call, operation, x, y),
        },
    }
}
