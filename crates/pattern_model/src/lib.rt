//! Parse-tree patterns (Roberts 1999): patterns with metavariables, what they match, where they are found in a method, and
//! a method rewritten by a rule. Over any type of names. No program text runs here.
#![tactic(auto)]

mod kinds;

pub use kinds::MetaKind;
