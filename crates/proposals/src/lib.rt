//! What is proposed to be done with an image, with how many names it is over.
#![tactic(auto)]

mod proposal;

pub use proposal::{Asked, Proposal};
