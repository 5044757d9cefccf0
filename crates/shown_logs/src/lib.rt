//! Laws of logs of sessions: over other commands and causes they have the same replies, and by the rules at their start they have
//! those by the rules at their end. No program text runs here.
#![tactic(auto)]

mod laws;

pub use laws::{law_shown, law_steady};
