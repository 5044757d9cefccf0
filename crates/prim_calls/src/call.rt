// What a primitive is given.
ghost use Rattle.std.specs.Prelude.{◌≡◌, None, length, option_map, IfOk};
ghost use Rattle.std.specs.Option.{option_copied, option_map_or};
ghost use Rattle.run_model.specs.Values.{int_value, object_value, string_value, symbol_value, bad_argument, overflow};
ghost use Rattle.run_model.specs.Store.{with_object};
ghost use Rattle.run_model.specs.Calls.{answers, faults, argument, as_integer, as_bytes, as_class, as_sequence, makes_bytes, makes_array, answers_truth, at_once};
ghost use Rattle.prim_calls.specs.Calls.{World, call_of, sequence_of};
ghost use Rattle.prim_calls.specs.Replies.{reply_of};

use crate::kinds::{Items, bytes_of, class_of, integer_of, items_of};
use crate::reply::{Change, Reply};
use rb_base::Memory;
use st_meaning::{Heap, Object, RunErrorKind, SharedText, Value, ValueKind, Values};

/// What a primitive is given: its number, the receiver, the arguments and the heap. `call_of` in specs/ is what it stands
/// for.
#[derive(Clone, Copy)]
pub struct Call<'a> {
    /// From 0 to 65,535.
    pub number: u16,
    pub receiver: &'a Value,
    pub arguments: &'a [Value],
    pub heap: &'a Heap,
}

impl<'a> Call<'a> {
    /// The fault of a receiver or argument of the wrong kind.
    pub fn bad_argument(&self) -> Reply
        ensures { result ≡ Reply.Faults (bad_argument self.now.number) }
    {
        Reply::fault(RunErrorKind::BadArgument {
            primitive: self.number,
        })
    }

    /// The integer that the argument of a number is, counted from 0.
    pub fn integer(&self, at: usize) -> Option<i64>
        ensures { (w : World) → result ≡ as_integer (argument (call_of w self.now) at) }
    {
        match self.arguments.get(at) {
            Some(value) => integer_of(value),
            None => None,
        }
    }

    /// The bytes of the string or symbol that the argument of a number is, counted from 0.
    pub fn bytes(&self, at: usize) -> Option<&SharedText>
        ensures { (w : World) → option_copied result ≡ as_bytes (argument (call_of w self.now) at) }
    {
        match self.arguments.get(at) {
            Some(value) => bytes_of(value),
            None => None,
        }
    }

    /// The name of the class that the argument of a number is, counted from 0.
    pub fn class(&self, at: usize) -> Option<&SharedText>
        ensures { (w : World) → option_copied result ≡ as_class (argument (call_of w self.now) at) }
    {
        match self.arguments.get(at) {
            Some(value) => class_of(value),
            None => None,
        }
    }

    /// The items of the string, symbol or array that the argument of a number is, counted from 0.
    pub fn items(&self, at: usize) -> Option<Items<'_>>
        ensures { (w : World) → option_map sequence_of result ≡ as_sequence self.now.heap.now (argument (call_of w self.now) at) }
    {
        match self.arguments.get(at) {
            Some(value) => items_of(self.heap, value),
            None => None,
        }
    }

    /// The argument of a number, counted from 0; nil where there is none.
    pub fn argument(&self, at: usize) -> Result<Value, Memory>
        ensures { IfOk result (λ value. (w : World) → value ≡ argument (call_of w self.now) at) }
    {
        match self.arguments.get(at) {
            Some(value) => value.share(),
            None => Ok(Value::nil()),
        }
    }

    /// True or false.
    pub fn truth(&self, holds: bool) -> Reply
        ensures { (w : World) → reply_of self.now.heap.now result ≡ answers_truth (call_of w self.now) holds }
    {
        Reply::at_once(Value::truth(holds))
    }

    /// An integer, and a fault where there is none of 64 bits.
    pub fn fitted(&self, number: Option<i64>) -> Reply
        ensures { (w : World) → reply_of self.now.heap.now result ≡ option_map_or (λ x. at_once (call_of w self.now) (int_value x)) number (faults overflow) }
    {
        match number {
            Some(number) => Reply::at_once(Value::new(ValueKind::Int(number))),
            None => Reply::fault(RunErrorKind::Overflow),
        }
    }

    /// A new string, which wants its length in ticks.
    pub fn string(&self, text: SharedText) -> Reply
        ensures { (w : World) → reply_of self.now.heap.now result ≡ makes_bytes (call_of w self.now) string_value text }
    {
        let length = text.len();
        if 65_535 < length {
            return Reply::fault(RunErrorKind::TooLong);
        }
        Reply::Answers {
            ticks: length,
            told: None,
            value: Value::new(ValueKind::Str(text)),
            change: Change::Nothing,
        }
    }

    /// A new symbol, which wants its length in ticks.
    pub fn symbol(&self, text: SharedText) -> Reply
        ensures { (w : World) → reply_of self.now.heap.now result ≡ makes_bytes (call_of w self.now) symbol_value text }
    {
        let length = text.len();
        if 65_535 < length {
            return Reply::fault(RunErrorKind::TooLong);
        }
        Reply::Answers {
            ticks: length,
            told: None,
            value: Value::new(ValueKind::Sym(text)),
            change: Change::Nothing,
        }
    }

    /// A new array, which wants its length in ticks.
    pub fn array(&self, values: Values) -> Reply
        ensures { (w : World) → reply_of self.now.heap.now result ≡ makes_array (call_of w self.now) values }
    {
        let length = values.len();
        if 65_535 < length {
            return Reply::fault(RunErrorKind::TooLong);
        }
        Reply::Answers {
            ticks: length,
            told: None,
            value: Value::new(ValueKind::Array(self.heap.array_count())),
            change: Change::NewArray(values),
        }
    }

    /// A new object.
    pub fn object(&self, object: Object) -> Reply
        ensures { reply_of self.now.heap.now result ≡ answers 0 None (object_value (length self.now.heap.now.objects)) (with_object self.now.heap.now object) }
    {
        Reply::Answers {
            ticks: 0,
            told: None,
            value: Value::new(ValueKind::Object(self.heap.object_count())),
            change: Change::NewObject(object),
        }
    }
}
