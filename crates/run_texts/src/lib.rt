//! The text that is printed of a run of a program: what it told, and how it came out.
#![tactic(auto)]

mod atoms;
mod errors;
mod runs;

pub use runs::write_run;
