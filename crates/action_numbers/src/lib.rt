//! Whether a composite may be carried out in an image, and which its steps are, is the same over the numbers of names in a
//! table and over their texts.
//!
//! The function of this crate is a law on the definitions: it does nothing.
#![tactic(auto)]

mod laws;

pub use laws::actions_by_numbers;
