//! An image of Smalltalk-80 (Goldberg and Robson 1983) without what an expression cannot reach, and the lines that tell what
//! it reaches.
#![tactic(auto)]

mod laws;
mod left;
mod sets;

pub use laws::methods_stand_once;
pub use left::strip_for;
pub use sets::write_sets;
