//! Code that is rewritten by a rule which a certificate derives can be written and read again where the code before can, and is
//! no higher than code may be: no return, no `super` and no block comes where it may not stand. No program text runs here.
//!
//! The functions of this crate are laws on the definitions: they do nothing.
#![tactic(auto)]

mod laws;

pub use laws::{law_rule_trees, law_spelled_comments};
