//! What scripts of refactorings ask for (Roberts 1999): lines, words, commands, and the first line that is wrong.
//!
//! The functions of this crate are laws on the definitions: they do nothing.
#![tactic(auto)]

mod laws;

pub use laws::{has_one_reading, judges_examples};
