//! What chunks of a file-out of Smalltalk-80 make of an image is the same over the numbers of names and over their texts.
//! The functions of this crate are laws on the definitions: they do nothing.
#![tactic(auto)]

mod laws;

pub use laws::{changes_by_numbers, methods_by_numbers, places_by_numbers};
