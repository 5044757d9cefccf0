//! An image with one more do-it, which is given by its text.
#![tactic(auto)]

mod added;

pub use added::{add_doit, read_doit};
