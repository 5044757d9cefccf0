//! Code in which a class, a variable or a selector gets another name: the change of each method and do-it that speaks of it
//! (Roberts 1999).
#![tactic(auto)]

mod anew;
mod change;
mod renamed;
mod renaming;
mod uses;

pub use change::code_change;
pub use renamed::Renamed;
