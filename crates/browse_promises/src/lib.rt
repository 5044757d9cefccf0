//! The program with all that is promised of it, in the contract of one call.
#![tactic(auto)]

mod call;

pub use call::perform;
