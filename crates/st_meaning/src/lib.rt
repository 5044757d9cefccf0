//! What a run of a program of Smalltalk-80 (Goldberg and Robson 1983) holds and tells: values, objects, contexts, the
//! store, errors, events and outcomes, each seen by contracts as that of the definition of runs.
#![tactic(auto)]

mod context;
mod error;
mod event;
mod heap;
mod names;
mod object;
mod slots;
mod store;
mod text;
mod value;
mod variables;
mod view;

pub use context::{Binding, BindingKind, Context};
pub use error::{RunError, RunErrorKind};
pub use event::{Event, EventKind, Outcome, OutcomeKind};
pub use heap::Heap;
pub use names::SharedNames;
pub use object::{Field, Object};
pub use store::{Closure, Store};
pub use text::{SharedText, same_text};
pub use value::{Value, ValueKind, Values};
pub use variables::{Variable, Variables};
pub use view::{Atom, AtomKind, View, ViewKind};
