//! What commands ask of names, by their texts: which new names are good, how many arguments a selector takes, and which
//! names the language or what runs a program has a meaning of its own for (Roberts 1999).
#![tactic(auto)]

mod good;
mod special;

pub use good::{is_good_class_name, is_good_selector, is_good_variable_name};
pub use special::{arity, has_own_meaning, is_not_understood, is_reflective_name};
