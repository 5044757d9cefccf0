//! The laws of certified rewriting: an image and what they make of it match each other. No program text runs here.
#![tactic(auto)]

mod laws;

pub use laws::{law_edited, law_rewritten_images};
