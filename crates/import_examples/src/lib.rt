//! Tables of chunks of other Smalltalks with what they become, checked against the definition.
#![tactic(auto)]

mod laws;

pub use laws::judges_examples;
