//! The canonical text of syntax trees of Smalltalk-80 (Goldberg and Robson 1983): how a tree is
//! laid out in lines, where parentheses stand, and how literals are written.
//!
//! The trees' names are texts here. The functions of this crate are laws on the definitions: they
//! do nothing.
#![tactic(auto)]

mod laws;
mod precedence;

pub use laws::{begins_with_no_blank, depends_on_texts_alone};
pub use precedence::Precedence;
