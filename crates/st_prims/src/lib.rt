//! The primitives of Smalltalk-80 (Goldberg and Robson 1983) by their numbers.
#![tactic(auto)]

mod chain;
mod closures;
mod numbers;
mod objects;
mod primitives;
mod transcript;

pub use chain::class_of_text;
pub use primitives::primitive;
