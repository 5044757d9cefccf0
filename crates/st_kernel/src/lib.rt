//! The kernel classes of Smalltalk-80 in this profile (Goldberg and Robson 1983), and the selectors with a meaning of
//! their own.
#![tactic(auto)]

mod kernel_text;
mod selectors;

pub use kernel_text::prelude;
pub use selectors::{is_control_selector, is_reflective, is_reserved};
