//! What is found in a text of Smalltalk-80: the events of its tree, or its first fault.
#![tactic(auto)]

mod reading;

pub use reading::{read_doit, read_method, read_pattern};
pub use st_faults::{LexFault, ParseFault, Wanted, word_of};
