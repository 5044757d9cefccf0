//! The canonical text of methods and do-its, written from their trees.
//!
//! A text is written from its end to its beginning: whether a block stands on one line is known only when what is in
//! it has been seen. So each node is seen once. What stands deeper in a tree than a bound is written after the rest, so the
//! recursion is no deeper than that, however high the tree is.
#![tactic(auto)]

mod backward;
mod bodies;
mod bytes;
mod flat;
mod gaps;
mod lines;
mod literals;
mod messages;
mod selectors;
mod trees;
mod whole;

pub use whole::{format_doit, format_method};
