//! The events of a reading: what a text spells, in the order in which a tree is built from it. They are a flat list, so
//! that a text of any depth can be read and judged before a tree is built.
#![tactic(auto)]

mod boxed;
mod event;
mod lists;

pub use boxed::BoxedComments;
pub use event::{Declaration, Declarations, Event, Events, MethodEvents, SequenceEvents};
