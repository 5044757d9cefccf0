// The primitives of closures.
ghost use Rattle.std.specs.Prelude.{◌≡◌, ◌<◌, ◌^◌, List};
ghost use Rattle.image_model.specs.Image.{ClassOf};
ghost use Rattle.run_model.specs.Values.{Name};
ghost use Rattle.run_model.specs.ObjectPrimitives.{enters_closure, counts_parameters};
ghost use Rattle.prim_calls.specs.Calls.{call_of};
ghost use Rattle.prim_calls.specs.Replies.{reply_of};
ghost use Rattle.st_prims.specs.Closures.{arity_of};

use prim_calls::{Call, Reply, closure_number};
use st_meaning::{Closure, RunErrorKind, Value, ValueKind};

/// How many parameters the closure of a number has, and 0 where there is none.
fn arity(closures: &[Closure<'_>], number: usize) -> usize
    ensures value { result ≡ arity_of closures.now number }
    ensures bound { result < 2 ^ 63 }
{
    match closures.get(number) {
        Some(closure) => closure.parameters.as_slice().len(),
        None => 0,
    }
}

/// A closure is entered that has as many parameters as there are arguments.
pub fn enters_closure(call: &Call<'_>, closures: &[Closure<'_>]) -> Reply
    ensures { (classes : List (ClassOf Name)) → reply_of call.now.heap.now result ≡ enters_closure (call_of (record { arity = arity_of closures.now; classes = classes }) call.now) }
{
    let Some(number) = closure_number(call.receiver) else {
        return call.bad_argument();
    };
    let given = call.arguments.len();
    if arity(closures, number) != given {
        return Reply::fault(RunErrorKind::WrongArity { given });
    }
    Reply::Enters(number)
}

/// How many parameters a closure has.
pub fn counts_parameters(call: &Call<'_>, closures: &[Closure<'_>]) -> Reply
    ensures { (classes : List (ClassOf Name)) → reply_of call.now.heap.now result ≡ counts_parameters (call_of (record { arity = arity_of closures.now; classes = classes }) call.now) }
{
    let Some(number) = closure_number(call.receiver) else {
        return call.bad_argument();
    };
    Reply::at_once(Value::new(ValueKind::Int(arity(closures, number) as i64)))
}
