//! The changes by which a method has another tree, and those by which an argument, a parameter or a temporary of one gets
//! another name (Roberts 1999).
#![tactic(auto)]

mod planning;
mod retold;

pub use planning::{no_changes, plan_retold, plan_temporary};
pub use retold::put_retold;
