//! What runs of an image can reach, the least that is closed, images without the rest, and the lines that tell what is
//! reached. No program text runs here.
#![tactic(auto)]

mod laws;

pub use laws::{law_reach_is_least, law_reach_is_of_image, law_reach_of_numbers};
