//! That each version of a history is matched with the image with which it began, after each step.
//!
//! The function of this crate is a law on the definitions: it does nothing.
#![tactic(auto)]

mod laws;

pub use laws::law_matched_histories;
