//! The command that rewrites all code of users by a rule with a certificate keeps runs, and what it makes of a valid image can be
//! written and read again.
//!
//! The functions of this crate are laws on the definitions: they do nothing.
#![tactic(auto)]

mod laws;

pub use laws::{law_rule_beside_matched, law_rule_keeps_runs, law_rule_nil, law_said_rule};
