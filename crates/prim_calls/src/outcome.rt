// What primitives answer, done in a store.
ghost use Rattle.std.specs.Prelude.{◌≡◌, ◌≤◌, List, IfOk, OnErr};
ghost use Rattle.run_model.specs.Values.{Name, Value as run_value};
ghost use Rattle.run_model.specs.Acts.{acts};
ghost use Rattle.run_model.specs.Eval.{Evaluator, follows};
ghost use Rattle.st_meaning.specs.StoreView.{store_of};
ghost use Rattle.prim_calls.specs.Replies.{changed, told_in, changed_in, reply_of, ends_as};

use crate::reply::{Change, Reply};
use rb_base::Memory;
use st_meaning::{Event, Heap, RunError, Store, Value};

/// What a primitive has come to.
#[derive(Drop)]
pub enum PrimResult {
    /// An answer.
    Answer(Value),
    /// A fault, which left all as it was.
    Fault(RunError),
    /// Fewer ticks were left than were wanted. All are taken, and nothing else has happened.
    Spent,
    /// The closure of a number in the store is to be run with the arguments.
    Enter(usize),
}

/// Tells the event, if there is one.
fn tell_any(store: &mut Store<'_>, told: Option<Event>) -> Result<(), Memory>
    ensures store { IfOk result (λ _. (names : List Name) → store_of names store.new ≡ told_in told (store_of names store.old)) }
    ensures ticks { store.new.ticks ≡ store.old.ticks }
    ensures rest { store.new ≡ record store.old { events = store.new.events } }
{
    match told {
        Some(event) => store.tell(event),
        None => Ok(()),
    }
}

fn change_heap(heap: &mut Heap, change: Change) -> Result<(), Memory>
    ensures changed { IfOk result (λ _. heap.new ≡ changed heap.old change) }
    ensures kept { OnErr result (heap.new ≡ heap.old) }
{
    match change {
        Change::Nothing => {}
        Change::NewObject(object) => {
            heap.add_object(object)?;
        }
        Change::NewArray(values) => {
            heap.add_array(values)?;
        }
        Change::Element { array, at, value } => heap.set_element(array, at, value),
    }
    Ok(())
}

/// Changes the heap.
fn make(store: &mut Store<'_>, change: Change) -> Result<(), Memory>
    ensures store { IfOk result (λ _. (names : List Name) → store_of names store.new ≡ changed_in change (store_of names store.old)) }
    ensures ticks { store.new.ticks ≡ store.old.ticks }
    ensures kept { OnErr result (store.new ≡ store.old) }
{
    change_heap(&mut store.heap, change)
}

/// Takes the ticks that a reply wants, tells its event, and changes the heap. On want of memory the ticks are taken, and the event
/// may be told; all else is as it was.
#[tactic(auto, unfolding(run_model::specs::Acts::fails))]
pub fn perform(store: &mut Store<'_>, reply: Reply) -> Result<PrimResult, Memory>
    ensures done { IfOk result (λ r. (names : List Name) (go : Evaluator acts) (args : List run_value) →
        ends_as go args r (store_of names store.new) ≡ follows acts go args (reply_of store.old.heap reply) (store_of names store.old)) }
    ensures ticks { store.new.ticks ≤ store.old.ticks }
    ensures kept { OnErr result (store.new ≡ record store.old { events = store.new.events; ticks = store.new.ticks }) }
{
    match reply {
        Reply::Faults(error) => Ok(PrimResult::Fault(error)),
        Reply::Enters(closure) => Ok(PrimResult::Enter(closure)),
        Reply::Answers {
            ticks,
            told,
            value,
            change,
        } => {
            if !store.pay(ticks) {
                return Ok(PrimResult::Spent);
            }
            tell_any(store, told)?;
            make(store, change)?;
            Ok(PrimResult::Answer(value))
        }
    }
}
