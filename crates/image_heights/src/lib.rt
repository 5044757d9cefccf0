//! How high code is: that of an image, and that of changes. No walk goes deeper than 200 levels of it.
#![tactic(auto)]

mod heights;
mod levels;

pub use heights::is_shallow;
pub use levels::{is_high, makes_high};
