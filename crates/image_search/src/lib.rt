//! The lines that tell where a pattern matches in an image.
#![tactic(auto)]

mod lines;
mod lookup;
mod parts;

pub use lines::write_matches;
