//! Slots of an image all of which are live, as in an image that was read.
//!
//! The function of this crate is a law on the definition: it does nothing.
#![tactic(auto)]

mod laws;

pub use laws::law_all_live;
