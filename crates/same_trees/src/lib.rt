//! Whether two trees are equal but for their comments, as a test over any names. No program text runs here.
//!
//! The function of this crate is a law on the definition: it does nothing.
#![tactic(auto)]

mod laws;

pub use laws::law_same_trees;
