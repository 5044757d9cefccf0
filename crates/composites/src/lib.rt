//! Composites in an image: the conditions that they have of their own, and the single commands that they are (Roberts 1999).
#![tactic(auto)]

mod accessors;
mod own;
mod pushes;
mod steps;

pub use own::first_own_false;
pub use steps::steps_of;
