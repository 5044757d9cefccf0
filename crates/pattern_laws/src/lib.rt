//! Laws of patterns: a match, of which there is one at most; where a search looks and what a rewriting makes; how bindings
//! fill a pattern; and names that are changed. No program text runs here.
#![tactic(auto)]

mod laws;

pub use laws::{law_filled, law_match, law_named, law_rewritten, law_text_words};
