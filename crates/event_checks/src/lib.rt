//! The faults of names and heights of a reading, judged on its events before any tree is built. Nothing recurs, and the
//! time is linear in the events.
#![tactic(auto)]

mod assignments;
mod check;
mod duplicates;
mod fixed_names;
mod heights;
mod scopes;
mod words;

pub use check::check_tree;
