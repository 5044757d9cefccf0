//! Laws of the changes by which a renaming is done: they make of an image what the renaming makes of it. Definitions of these
//! changes; no program text runs here.
//!
//! The function of this crate is a law on the definitions: it does nothing.
#![tactic(auto)]

mod laws;

pub use laws::law_planned;
