//! What is in the way of a refused command is the same over the numbers of names in a table and over their texts.
//!
//! The function of this crate is a law on the definitions: it does nothing.
#![tactic(auto)]

mod laws;

pub use laws::witnesses_by_numbers;
