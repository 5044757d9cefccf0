//! What is in the way of each condition in small images, held against the definitions by computation.
//!
//! The function of this crate is a law: it does nothing.
#![tactic(auto)]

mod laws;

pub use laws::judges_witnesses;
