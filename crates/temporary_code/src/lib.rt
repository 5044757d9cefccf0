//! Methods in which an argument, a parameter or a temporary has another name, their comments in normal form; and whether two
//! methods are the same but for comments.
#![tactic(auto)]

mod naming;
mod normal;

pub use naming::renamed_temporary;
pub use normal::{normalized, same_code};
