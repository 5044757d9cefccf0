//! The changes by which renamings are carried out: one of the class or the variable, and one of each method and do-it that
//! speaks of it (Roberts 1999).
#![tactic(auto)]

mod class_change;
mod planning;

pub use planning::plan;
