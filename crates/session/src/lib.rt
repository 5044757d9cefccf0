//! A session: an image, its index and the log of what was done with it, by which actions are undone and done again.
#![tactic(auto)]

mod done;
mod grouping;
mod performing;
mod refusal;
mod renames;
mod ruling;
mod session;

pub use refusal::{GroupRefusal, RuleRefusal, StepRefusal};
pub use renames::{AllRenames, Renames};
pub use session::Session;
