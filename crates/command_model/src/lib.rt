//! What refactorings demand of an image, and what they make of it (Roberts 1999): those of classes, of variables, of methods
//! and of parts of methods; and what each of them renames. Definitions over any type of names; no program text runs here.
//!
//! The functions of this crate are laws on the definitions: they do nothing.
#![tactic(auto)]

mod laws;

pub use laws::{law_all_hold, law_doit_beside, law_parts_of_text};
