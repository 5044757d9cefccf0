//! The changes by which variables of classes come, go and move to other classes (Roberts 1999).
#![tactic(auto)]

mod planning;
mod record_copy;
mod records;
mod route;

pub use planning::plan_move;
pub use record_copy::copied;
