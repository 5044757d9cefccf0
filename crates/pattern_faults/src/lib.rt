//! The text of a pattern and the two texts of a rule, read into patterns, or their first fault.
#![tactic(auto)]

mod fault;
mod lists;
mod places;
mod reading;
mod searching;

pub use fault::{PatternFault, RuleFault};
pub use reading::{read_pattern, read_rule};
