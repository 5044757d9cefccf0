//! The changes by which methods come, go, and move up and down between classes (Roberts 1999).
#![tactic(auto)]

mod copies;
mod down;
mod going;
mod named;
mod up;

pub use down::plan_method_down;
pub use going::{plan_method_removal, plan_new_method, put_live};
pub use up::plan_method_up;
