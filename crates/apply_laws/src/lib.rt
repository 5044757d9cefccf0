//! That `apply` has an answer to each two texts, and that its answers keep what is promised of them.
//!
//! The functions of this crate are laws on the definitions: they do nothing.
#![tactic(auto)]

mod laws;

pub use laws::{has_some_answer, law_applied};
