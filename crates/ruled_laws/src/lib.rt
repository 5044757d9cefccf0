//! Scripts whose lines may ask for rules with certificates: what becomes of them, and that they keep runs.
//!
//! The functions of this crate are laws on the definitions: they do nothing.
#![tactic(auto)]

mod laws;

pub use laws::{
    law_ruled_action, law_ruled_admitted, law_ruled_history, law_ruled_nil, law_without_rules,
};
