//! Code that is made anew in place, from below.
#![tactic(auto)]

mod remaking;

pub use remaking::{Making, remake_doit, remake_method};
