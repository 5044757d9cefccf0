//! The events of a text of the grammar of Smalltalk-80: what it spells, in the order in which its tree is built. A text
//! is read in one pass that never calls itself: what may come next stands on a stack, and what was found comes out in a
//! flat list.
#![tactic(auto)]

mod answers;
mod blocks;
mod events;
mod expressions;
mod heads;
mod literals;
mod messages;
mod numbers;
mod part;
mod reader;
mod reading;
mod sequences;
mod texts;
mod token;
mod tokens;

pub use events::{doit_events, method_events, pattern_events};
