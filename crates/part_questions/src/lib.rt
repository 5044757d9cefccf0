//! What commands ask of a part of a method: whether it may be taken out, and what is evaluated before it. And what is asked of
//! places in a method: the innermost scope, closures, and expressions whose value nothing changes.
#![tactic(auto)]

mod code;
mod faults;
mod first;
mod names;
mod parts;
mod places;

pub use code::{MethodCode, is_atom, is_plain};
pub use faults::{Asked, Fault, has_fault, is_return};
pub use first::{is_before_sends, is_first_evaluated, steps_to_statement};
pub use names::is_constant;
pub use parts::{
    are_temporaries_steady, assigns_no_outer, has_no_return, is_part, is_value_unused,
};
pub use places::{innermost, is_assigned_in_the_open, stands_in_closure, statements_at};
