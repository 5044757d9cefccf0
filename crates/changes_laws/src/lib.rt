//! That the answers of `changes` keep what is promised of them.
//!
//! The function of this crate is a law on the definitions: it does nothing.
#![tactic(auto)]

mod laws;

pub use laws::law_changes;
