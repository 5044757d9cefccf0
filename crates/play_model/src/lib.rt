//! What `team` answers to whole file-outs and logs, and that it has one answer.
//!
//! The functions of this crate are laws on the definitions: they do nothing.
#![tactic(auto)]

mod laws;

pub use laws::has_one_answer;
