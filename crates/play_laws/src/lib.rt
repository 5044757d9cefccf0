//! What is promised of the answers of `team`: the image at the end is one that a script makes, so it keeps the runs.
//!
//! The functions of this crate are laws on the definitions: they do nothing.
#![tactic(auto)]

mod laws;

pub use laws::{has_some_answer, law_played};
