//! What is asked before a temporary becomes what is assigned to it (Roberts 1999): whether the value is the same wherever the
//! temporary is read, whether its names mean the same there, and whether it makes no control send there.
#![tactic(auto)]

mod control;
mod form;
mod kept;
mod question;

pub use control::is_value_no_control;
pub use form::{is_let_form, let_path};
pub use kept::is_value_kept;
pub use question::LetCode;
