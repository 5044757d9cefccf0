//! What the texts of patterns and rules say, where a pattern matches in an image, and the image in which a rule is applied.
//! Definitions and laws; no program text runs here.
#![tactic(auto)]

mod laws;

pub use laws::{has_one_list_of_lines, has_one_pattern, has_one_rule, judges_rewriting_examples};
