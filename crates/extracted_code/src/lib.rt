//! A part of a method that becomes a method of its own, and the method that sends it.
#![tactic(auto)]

mod call;
mod extracting;
mod statements;

pub use call::free_temporaries;
pub use extracting::{Extracted, extract};
