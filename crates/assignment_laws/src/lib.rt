//! The law of what code assigns, by the grammar that lets code through: no pseudo-variable, no argument and no parameter. No
//! program text runs here.
#![tactic(auto)]

mod laws;

pub use laws::law_assigned_names;
