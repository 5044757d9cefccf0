//! Whether the steps of a certificate lead from the pattern of a rule to its replacement.
#![tactic(auto)]

mod gathering;
mod laws;
mod marking;
mod marks;
mod naming;
mod steps;
mod turning;
mod words;

pub use steps::{Derivation, derives};
