//! What a plan is: the changes by which a command is carried out (Roberts 1999).
#![tactic(auto)]

mod plan;

pub use plan::Plan;
