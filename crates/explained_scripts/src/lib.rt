//! What `why` answers to a script in an image that was read: what is in the way of the first command that is refused.
#![tactic(auto)]

mod explain;
mod found;
mod judging;
mod lines;
mod rules;
mod sentences;
mod witnesses;

pub use explain::explain_script;
