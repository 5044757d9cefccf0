//! The changes by which an argument comes to a selector or leaves it: one of each method and do-it that has or sends the
//! selector (Roberts 1999).
#![tactic(auto)]

mod code;
mod given;
mod laws;
mod passing;
mod planning;

pub use given::ParameterChange;
pub use planning::plan_parameter;
