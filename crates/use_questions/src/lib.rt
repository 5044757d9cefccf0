//! What commands ask of the code of an image that means a class or a variable: whether there is such code, and where it
//! stands. By an index, so that only code is opened that mentions the name.
#![tactic(auto)]

mod answers;
mod code;
mod places;
mod question;

pub use answers::{is_class_used, is_not_referenced, is_unused, kind_of, looked_through};
pub use code::is_meant;
pub use places::{are_doits_asked, is_asked};
pub use question::{Meant, Whose};
