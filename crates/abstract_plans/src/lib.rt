//! The changes by which an instance variable is read and assigned by messages: one of each method and do-it that means it, and
//! then the getter and the setter (Roberts 1999).
#![tactic(auto)]

mod code;
mod laws;
mod planning;

pub use planning::plan_abstraction;
