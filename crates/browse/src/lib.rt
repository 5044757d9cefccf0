//! The program: what the words of a command line and the files that they name are answered with.
#![tactic(auto)]

mod apply;
mod changes;
mod demo;
mod run;
mod team;
mod top;
mod why;

pub use image_forms::Status;
pub use top::{browse, has_one_answer};
