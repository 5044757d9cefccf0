//! Code in which an instance variable is read and assigned by messages, and the methods for these messages (Roberts 1999).
#![tactic(auto)]

mod abstracted;
mod abstracting;
mod abstraction;
mod accessors;

pub use abstracted::{abstracted_doit, abstracted_method};
pub use abstraction::Abstraction;
pub use accessors::{getter, setter};
