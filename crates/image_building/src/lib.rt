//! The image of a file-out, built from the draft that was made while the file-out was read.
#![tactic(auto)]

mod build;
mod classes;
mod doits;
mod methods;

pub use build::image_from;
