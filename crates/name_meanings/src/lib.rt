//! What names stand for at a place in a method or a do-it of an image of Smalltalk-80 (Goldberg and Robson 1983).
#![tactic(auto)]

mod behind;
mod meaning;
mod place;

pub use behind::{defines, is_among};
pub use meaning::{Meaning, VariableKind};
pub use place::{doit_meaning, method_meaning};
