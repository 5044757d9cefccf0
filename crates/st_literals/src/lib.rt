//! The values of literals: integers that numerals spell, texts, characters, truth values, `nil`, and arrays of these.
#![tactic(auto)]

mod literals;
mod numerals;

pub use literals::literal;
pub use numerals::numeral;
