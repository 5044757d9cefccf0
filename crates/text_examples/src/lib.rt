//! Tables of syntax trees with their canonical texts, held against the definition of canonical texts.
//!
//! The functions of this crate are laws: they do nothing.
#![tactic(auto)]

mod laws;

pub use laws::{writes_doits, writes_methods};
