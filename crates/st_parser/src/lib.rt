//! The parser of methods and do-its of Smalltalk-80, and of patterns: expressions in which metavariables may stand.
#![tactic(auto)]

mod parse;
mod pattern;

pub use parse::{parse_doit, parse_method};
pub use pattern::parse_pattern;
pub use st_reading::{LexFault, ParseFault, Wanted, word_of};
