//! What is in the way of the conditions of a single method: the method itself, `super` in it, a name in it, and the names in
//! it that mean another thing in another class.
#![tactic(auto)]

mod meanings;
mod methods;

pub use meanings::{name_used, other_meanings};
pub use methods::{kernel_method, method_there, namings_in_method, supers};
