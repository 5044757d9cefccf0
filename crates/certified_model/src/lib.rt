//! Certificates of rewriting: steps by ten laws on patterns. Such a step holds for all that metavariables may be bound to.
//! No program text runs here.
#![tactic(auto)]

mod laws;

pub use laws::{law_filled_steps, law_rewritten_steps, law_ten_laws};
