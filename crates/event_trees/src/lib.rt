//! Trees from the events of a reading: what a text spells, built with stacks, so that nothing here calls itself.
#![tactic(auto)]

mod building;
mod last;
mod naming;
mod sequences;
mod stacks;

pub use sequences::{build_doit, build_method};
