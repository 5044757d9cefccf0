//! Code in which a rule is applied: what its pattern matches is replaced by its replacement, filled.
#![tactic(auto)]

mod rewriting;

pub use rewriting::rewrite_body;
