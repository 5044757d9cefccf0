//! What is in the way of a refused command: the witnesses of each condition that is false, and their law. Definitions over any
//! type of names; no program text runs here.
//!
//! The functions of this crate are laws on the definitions: they do nothing.
#![tactic(auto)]

mod laws;

pub use laws::{has_one_line, law_lines, law_witnesses};
