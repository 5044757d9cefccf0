//! What commands ask of the classes of an image: whether a class is one of the user, which variables classes define, and
//! which classes stand above others.
#![tactic(auto)]

mod chains;
mod records;

pub use chains::{Sought, is_defined_above, is_defined_below, stands_above};
pub use records::{has_variable, is_any_named, is_class, is_user_class};
