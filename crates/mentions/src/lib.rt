//! Which names code mentions: a list that is complete and goes along with a change of names, and the program's list of
//! the nodes and of the names of a method or a do-it.
#![tactic(auto)]

mod laws;
mod listing;
#[cfg(test)]
mod tests;
mod walk;

pub use laws::{law_complete, law_listed, law_names_changed, law_unlisted, law_unmentioned};
pub use listing::{doit_names, leave_once, method_names};
pub use walk::nodes_of;
