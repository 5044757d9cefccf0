//! What is in the way of the conditions of names: code that looks at the program itself, and names and selectors that are
//! there already.
#![tactic(auto)]

mod names;

pub use names::{kernel_speakings, namings, reflections_there, speakings};
