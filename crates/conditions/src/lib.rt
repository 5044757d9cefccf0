//! The conditions of commands, judged by an index of the image (Roberts 1999).
#![tactic(auto)]

mod added;
mod code;
mod code_judged;
mod judged;
mod moves;
mod needed;
mod parameters;
mod reflection;

pub use judged::first_false;
pub use moves::kept_of;
pub use reflection::has_no_reflection;
