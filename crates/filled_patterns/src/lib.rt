//! Patterns that are filled: the code in which each metavariable is replaced by what it is bound to.
#![tactic(auto)]

mod bindings;
mod filling;
mod sequences;
mod standing;

pub use bindings::Binding;
pub use filling::fill;
