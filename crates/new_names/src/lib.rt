//! What names are called after they got other names one after the other, and what runs show of that.
#![tactic(auto)]

mod compose;
mod laws;

pub use compose::{NewName, composed};
pub use laws::{law_composed_names, law_shown_renamings};
