//! The lines that say why a script or a command of it is refused (Roberts 1999).
#![tactic(auto)]

mod certificate;
mod conditions;
mod lines;
mod words;

pub use conditions::push_condition;
pub use lines::{push_not_derived, push_refusal, push_script_line, push_underived};
