//! What commands ask that change parameters and temporaries: whether a parameter is read, what messages pass for it, how
//! high code is, and what a method declares and names. By an index, so that only code is opened that mentions the selector.
#![tactic(auto)]

mod answers;
mod atoms;
mod code;
mod faults;
mod found;
mod places;
mod question;
mod temporaries;

pub use answers::{are_arguments_plain, is_parameter_unused, is_shallow_speaking};
pub use atoms::is_passed_atom;
pub use code::{Code, are_dropped_by, body_of, meaning_at};
pub use faults::{is_formal, is_high};
pub use found::{Sought, found_in};
pub use places::is_place_found;
pub use question::{Fault, Question};
pub use temporaries::{declares_once, is_declared_once, is_not_in, users_method};
