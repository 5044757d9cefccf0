//! Rules that a row of steps or a certificate carries from pattern to replacement: what they make of an image and the image
//! before match each other. No program text runs here.
#![tactic(auto)]

mod laws;

pub use laws::{law_certified_rule, law_derived_rule};
