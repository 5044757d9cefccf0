//! What is in the way of the conditions on uses: code that means a class or a variable, messages of a selector and what they
//! pass, reads of an argument, classes that would find another method, and code that is too high.
#![tactic(auto)]

mod arguments;
mod brought;
mod families;
mod heights;
mod reached;
mod targets;
mod uses;

pub use arguments::argument_reads;
pub use brought::reflections_brought;
pub use families::{looked_uses, missers, other_passings, outer_uses};
pub use heights::{heights_there, is_brought_high, too_high};
pub use reached::others_after;
pub use targets::other_targets;
