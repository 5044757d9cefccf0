//! An image in which a rule is applied in each method of a user and in each do-it, and the changes by which that is done.
#![tactic(auto)]

mod changing;
mod equality;
mod planning;
mod rewriting;

pub use planning::plan_rule;
pub use rewriting::rewrite_image;
