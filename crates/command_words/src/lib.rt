//! The words of a command line, and the form that they are in.
#![tactic(auto)]

mod questions;
mod spelling;
mod words;

pub use questions::{Question, VariableKind};
pub use spelling::number_of;
pub use words::{Words, words_of};
