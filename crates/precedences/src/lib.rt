//! How loosely expressions and messages hold together, and what a message takes without parentheses.
#![tactic(auto)]

mod expressions;
mod limits;

pub use expressions::{message_precedence, messages_precedence, precedence_of, text_of};
pub use limits::{argument_limit, is_looser, receiver_limit};
