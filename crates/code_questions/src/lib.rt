//! What commands ask of the code of an image: whether a method or a do-it names a name, sends a selector or has it. By an
//! index, so that only code is opened that mentions the name.
#![tactic(auto)]

mod places;
mod question;

pub use places::is_found;
pub use question::{Question, Way, Whose};
