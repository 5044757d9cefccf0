//! What is in the way of the conditions of classes and of variables: classes, and code that names a variable.
#![tactic(auto)]

mod arrivals;
mod classes;

pub use arrivals::hindrances;
pub use classes::{children, kernel_class, kernel_parent, other_parent, own_definer};
