//! The changes by which a class goes with its methods, and by which one comes (Roberts 1999).
#![tactic(auto)]

mod addition;
mod removal;

pub use addition::plan_new_class;
pub use removal::plan_class_removal;
