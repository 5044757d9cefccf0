//! What is asked before a message is replaced by the body of the method that it finds (Roberts 1999): whether it is sent to
//! `self` and finds one method alone, whether that method has a body that may stand there, and whether each name in it, and what
//! is passed for its arguments, means the same there.
#![tactic(auto)]

mod actuals;
mod capture;
mod code;
mod control;
mod inlinable;
mod targets;

pub use actuals::{are_actuals_plain, is_actual_plain};
pub use capture::{captures_nothing, free_names_of, is_of_block, same_meaning};
pub use code::{Call, Target, is_self_send, opened, target_of};
pub use control::{makes_control, makes_no_control};
pub use inlinable::{is_fit, is_inlinable, is_method_of};
pub use targets::is_one_target;
