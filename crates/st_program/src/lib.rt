//! The program that is run: an image, the texts of its names, the methods that messages run, and what names stand for.
#![tactic(auto)]

mod fetch;
mod found;
mod meaning;
mod program;
mod variables;

pub use found::Found;
pub use meaning::Meaning;
pub use program::Program;
