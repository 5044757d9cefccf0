// The one call of all primitives.
ghost use Rattle.std.specs.Prelude.{◌≡◌, ◌≤◌, List, IfOk, OnErr};
ghost use Rattle.run_model.specs.Values.{Name};
ghost use Rattle.run_model.specs.Acts.{acts};
ghost use Rattle.run_model.specs.Eval.{Evaluator, does_primitive};
ghost use Rattle.run_model.specs.Primitives.{primitive};
ghost use Rattle.class_table.specs.View.{image_of};
ghost use Rattle.class_table.specs.Valid.{IsOrderly};
ghost use Rattle.st_meaning.specs.StoreView.{store_of};
ghost use Rattle.prim_calls.specs.Calls.{call_of};
ghost use Rattle.prim_calls.specs.Replies.{reply_of, ends_as};
ghost use Rattle.st_prims.specs.Closures.{world_of};
ghost use Rattle.st_prims.specs.Rows.{row_of};

use crate::closures::{counts_parameters, enters_closure};
use crate::numbers::{Primitive, primitive_of};
use crate::objects::{
    copies, gives_class, gives_instance, is_kind_of, is_reflective, is_same, raises_error,
};
use crate::transcript::{prints, shows};
use class_table::Image;
use integer_prims::{
    gives_byte, gives_character, on_integers, prints_character, prints_integer, string_of_character,
};
use prim_calls::{Call, PrimResult, Reply, perform};
use rb_base::Memory;
use sequence_prims::{
    gives_array, gives_item, gives_length, gives_part, is_text_before, joins, prints_string,
    prints_symbol, stores_item, string_of_symbol, symbol_of_string,
};
use st_meaning::{Closure, Store, Value};
use std::alloc::Global;

fn reply_of_primitive(
    alloc: Global,
    primitive: Primitive,
    call: &Call<'_>,
    image: &Image,
    closures: &[Closure<'_>],
) -> Result<Reply, Memory>
    requires { IsOrderly image.now }
    ensures { IfOk result (λ r. reply_of call.now.heap.now r ≡ row_of primitive (call_of (world_of closures.now image.now) call.now)) }
{
    match primitive {
        Primitive::Same => is_same(call),
        Primitive::Class => gives_class(alloc, call),
        Primitive::KindOf => Ok(is_kind_of(call, image)),
        Primitive::Copy => copies(alloc, call),
        Primitive::Error => raises_error(call),
        Primitive::Reflective => Ok(is_reflective(call)),
        Primitive::New => gives_instance(alloc, call),
        Primitive::OnIntegers(operation) => Ok(on_integers(call, operation)),
        Primitive::PrintInteger => prints_integer(alloc, call),
        Primitive::AsCharacter => Ok(gives_character(call)),
        Primitive::Size => Ok(gives_length(call)),
        Primitive::At => gives_item(call),
        Primitive::AtPut => stores_item(call),
        Primitive::Join => joins(alloc, call),
        Primitive::Part => gives_part(alloc, call),
        Primitive::Before => Ok(is_text_before(call)),
        Primitive::AsSymbol => symbol_of_string(call),
        Primitive::PrintString => prints_string(alloc, call),
        Primitive::AsString => string_of_symbol(call),
        Primitive::PrintSymbol => prints_symbol(alloc, call),
        Primitive::NewArray => gives_array(alloc, call),
        Primitive::AsByte => Ok(gives_byte(call)),
        Primitive::CharacterString => string_of_character(alloc, call),
        Primitive::PrintCharacter => prints_character(alloc, call),
        Primitive::Enter => Ok(enters_closure(call, closures)),
        Primitive::CountParameters => Ok(counts_parameters(call, closures)),
        Primitive::Show => shows(call),
        Primitive::Print => prints(call),
    }
}

fn reply(
    alloc: Global,
    call: &Call<'_>,
    image: &Image,
    closures: &[Closure<'_>],
) -> Result<Reply, Memory>
    requires { IsOrderly image.now }
    ensures { IfOk result (λ r. reply_of call.now.heap.now r ≡ primitive (call_of (world_of closures.now image.now) call.now)) }
{
    match primitive_of(call.number) {
        Some(primitive) => reply_of_primitive(alloc, primitive, call, image, closures),
        None => Ok(call.bad_argument()),
    }
}

/// Does the primitive of a number, from 0 to 65,535, for a receiver with arguments: takes the ticks that it wants, tells
/// its event and changes the heap. Where there is no such primitive the receiver is of the wrong kind. A closure is not
/// run here: it is for the caller to enter it. On want of memory the ticks may be taken and the event told; all else that the store
/// holds is as it was.
pub fn primitive(
    alloc: Global,
    number: u16,
    receiver: &Value,
    arguments: &[Value],
    image: &Image,
    store: &mut Store<'_>,
) -> Result<PrimResult, Memory>
    requires { IsOrderly image.now }
    ensures done { IfOk result (λ r. (names : List Name) (go : Evaluator acts) →
        ends_as go arguments.now r (store_of names store.new) ≡ does_primitive acts (image_of image.now) go number receiver.now arguments.now (store_of names store.old)) }
    ensures ticks { store.new.ticks ≤ store.old.ticks }
    ensures kept { OnErr result (store.new ≡ record store.old { events = store.new.events; ticks = store.new.ticks }) }
{
    let call = Call {
        number,
        receiver,
        arguments,
        heap: &store.heap,
    };
    let reply = reply(alloc, &call, image, &store.closures)?;
    perform(store, reply)
}
