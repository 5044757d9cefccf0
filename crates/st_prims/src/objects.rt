// The primitives of all objects and of classes.
ghost use Rattle.std.specs.Prelude.{◌≡◌, List, IfOk};
ghost use Rattle.std.specs.List.{list_any};
ghost use Rattle.rb_base.specs.Names.{text_eq};
ghost use Rattle.run_model.specs.ObjectPrimitives.{is_same, gives_class, instance_class, is_on_chain, is_kind_of, copies, raises_error, is_reflective, value_classes, instance_of, gives_instance};
ghost use Rattle.class_table.specs.Valid.{IsOrderly};
ghost use Rattle.st_meaning.specs.declared.store.Closure.{Closure};
ghost use Rattle.prim_calls.specs.Calls.{World, call_of};
ghost use Rattle.prim_calls.specs.Replies.{reply_of};
ghost use Rattle.st_prims.specs.Closures.{world_of};

use crate::chain::is_on_chain;
use class_table::Image;
use prim_calls::{Call, Reply, class_of};
use rb_base::{Memory, Text};
use st_meaning::{Heap, Object, RunErrorKind, SharedText, Value, ValueKind, Values, same_text};
use std::alloc::Global;

/// Whether the receiver and the argument are the same.
pub fn is_same(call: &Call<'_>) -> Result<Reply, Memory>
    ensures { IfOk result (λ r. (w : World) → reply_of call.now.heap.now r ≡ is_same (call_of w call.now)) }
{
    let argument = call.argument(0)?;
    Ok(call.truth(call.receiver.same(&argument)))
}

/// The class of the receiver, which is no class itself.
pub fn gives_class(alloc: Global, call: &Call<'_>) -> Result<Reply, Memory>
    ensures { IfOk result (λ r. (w : World) → reply_of call.now.heap.now r ≡ gives_class (call_of w call.now)) }
{
    if call.receiver.is_class() {
        return Ok(Reply::fault(RunErrorKind::Reflective));
    }
    let name = call.heap.class_name(call.receiver);
    let class = SharedText::from_slice(alloc, name)?;
    Ok(Reply::at_once(Value::new(ValueKind::Class(class))))
}

/// The name of the class whose instance a value is; a class is one of `Class`.
fn instance_class<'a>(heap: &'a Heap, value: &'a Value) -> &'a [u8]
    ensures { result.now ≡ instance_class heap.now value.now }
{
    match &value.kind {
        ValueKind::Class(_) => b"Class",
        _ => heap.class_name(value),
    }
}

/// Whether a class is on the chain of the receiver's class.
pub fn is_kind_of(call: &Call<'_>, image: &Image) -> Reply
    requires { IsOrderly image.now }
    ensures { (closures : List Closure) → let w = world_of closures image.now in reply_of call.now.heap.now result ≡ is_kind_of (call_of w call.now) }
{
    let Some(class) = call.class(0) else {
        return call.bad_argument();
    };
    let name = instance_class(call.heap, call.receiver);
    Reply::at_once(Value::truth(is_on_chain(image, class.as_slice(), name)))
}

/// A copy of an object or array, and any other value itself.
pub fn copies(alloc: Global, call: &Call<'_>) -> Result<Reply, Memory>
    ensures { IfOk result (λ r. (w : World) → reply_of call.now.heap.now r ≡ copies (call_of w call.now)) }
{
    let receiver = call.receiver;
    match &receiver.kind {
        ValueKind::Object(number) => match call.heap.object(*number) {
            Some(object) => Ok(call.object(object.try_copy(alloc)?)),
            None => Ok(Reply::at_once(receiver.share()?)),
        },
        ValueKind::Array(number) => {
            let values = Values::from_slice(alloc, call.heap.elements(*number))?;
            Ok(call.array(values))
        }
        _ => Ok(Reply::at_once(receiver.share()?)),
    }
}

/// The error with the bytes of a string or symbol.
pub fn raises_error(call: &Call<'_>) -> Result<Reply, Memory>
    ensures { IfOk result (λ r. (w : World) → reply_of call.now.heap.now r ≡ raises_error (call_of w call.now)) }
{
    match call.bytes(0) {
        Some(text) => {
            let text = text.share()?;
            Ok(Reply::fault(RunErrorKind::UserError { text }))
        }
        None => Ok(call.bad_argument()),
    }
}

/// A reflective message.
pub fn is_reflective(call: &Call<'_>) -> Reply
    ensures { (w : World) → reply_of call.now.heap.now result ≡ is_reflective (call_of w call.now) }
{
    Reply::fault(RunErrorKind::Reflective)
}

/// Whether the instances of a class are values with a spelling or a use of their own.
fn is_value_class(class: &[u8]) -> bool
    ensures { result ≡ list_any (text_eq class.now) value_classes }
{
    same_text(class, b"UndefinedObject")
        || same_text(class, b"True")
        || same_text(class, b"False")
        || same_text(class, b"Integer")
        || same_text(class, b"Character")
        || same_text(class, b"String")
        || same_text(class, b"Symbol")
        || same_text(class, b"Array")
        || same_text(class, b"Block")
        || same_text(class, b"Class")
        || same_text(class, b"TextCollector")
}

/// A new instance of a class: an empty array, an empty string, or an object; the other classes of values have no new
/// instances.
fn instance_of(alloc: Global, call: &Call<'_>, class: &SharedText) -> Result<Reply, Memory>
    ensures { IfOk result (λ r. (w : World) → reply_of call.now.heap.now r ≡ instance_of (call_of w call.now) class.now) }
{
    if same_text(class.as_slice(), b"Array") {
        return Ok(call.array(Values::new(alloc)));
    }
    if same_text(class.as_slice(), b"String") {
        let empty = SharedText::new(alloc, Text::new(alloc))?;
        return Ok(Reply::at_once(Value::new(ValueKind::Str(empty))));
    }
    if is_value_class(class.as_slice()) {
        return Ok(call.bad_argument());
    }
    Ok(call.object(Object::new(alloc, class.share()?)))
}

/// A new instance of the receiver.
pub fn gives_instance(alloc: Global, call: &Call<'_>) -> Result<Reply, Memory>
    ensures { IfOk result (λ r. (w : World) → reply_of call.now.heap.now r ≡ gives_instance (call_of w call.now)) }
{
    match class_of(call.receiver) {
        Some(class) => instance_of(alloc, call, class),
        None => Ok(call.bad_argument()),
    }
}
