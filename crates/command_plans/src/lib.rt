//! The changes by which commands are carried out, with the room that they need (Roberts 1999).
#![tactic(auto)]

mod code;
mod planning;

pub use planning::plan;
