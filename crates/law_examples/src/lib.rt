//! Examples of the definitions on which laws stand: patterns and rules, certificates, parameters that come and go, stripped
//! images, and images in which code is inlined, extracted and put behind accessors. Each is held against its definition by
//! computation, or meets what a law asks.
//!
//! The functions of this crate are laws: they do nothing.
#![tactic(auto)]

mod laws;
mod places;

pub use laws::{
    judges_certificates, judges_parameter_examples, matches_pattern_examples, strips_examples,
};
pub use places::{law_example_accessed, law_example_extracted, law_example_inlined};
