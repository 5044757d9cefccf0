//! What the text of a log of sessions asks for: lines, events, and the first line that is wrong.
//!
//! The functions of this crate are laws on the definitions: they do nothing.
#![tactic(auto)]

mod laws;

pub use laws::{has_one_log, law_proposed};
