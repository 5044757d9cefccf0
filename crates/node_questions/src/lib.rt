//! What a node itself sends, and what it reads or assigns.
#![tactic(auto)]

mod nodes;

pub use nodes::{sends, uses};
