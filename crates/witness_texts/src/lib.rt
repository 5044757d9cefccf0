//! The lines of witnesses: where each stands in the source of its method or do-it, or what it is.
#![tactic(auto)]

mod code;
mod lines;
mod meanings;

pub use lines::witness_lines;
