//! The command that rewrites all code of users by a rule, where a certificate derives the rule: the text of a certificate, the
//! line of a script, the conditions of the command and what it makes of an image. Definitions over texts; no program text runs
//! here.
//!
//! The functions of this crate are laws on the definitions: they do nothing.
#![tactic(auto)]

mod laws;

pub use laws::{has_one_rule_line, law_rule_beside};
