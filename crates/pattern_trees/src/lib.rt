//! The patterns of trees in which metavariables stand as names, selectors and keywords with their backquotes, and when they
//! and the rules that are made of them are lawful.
#![tactic(auto)]

mod laws;
mod metas;
mod spelling;
mod walk;

pub use laws::{law_fault_examples, law_read, law_rule, law_unnamed};
pub use walk::pattern_of;
