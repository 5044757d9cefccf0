//! Methods in which the body of another method stands in place of a message (Roberts 1999), and what is passed for the
//! arguments of that other method.
#![tactic(auto)]

mod inlining;
mod passing;
mod places;
mod sent;
mod sequences;

pub use inlining::tree_inlined;
pub use passing::{answered, passed_for, unfolded};
pub use places::{sequence_round, whole_statement};
pub use sent::{Sent, sent_by};
pub use sequences::{put_for, statement_replaced};
