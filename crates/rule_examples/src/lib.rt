//! Small images, and what rules with certificates make of them. No program text runs here.
#![tactic(auto)]

mod laws;

pub use laws::judges_rules;
