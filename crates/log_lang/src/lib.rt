//! The reader of logs of sessions: what the sessions do, in order, or the first line that is wrong.
#![tactic(auto)]

mod event;
mod log;

pub use event::{Act, Event};
pub use log::parse_log;
