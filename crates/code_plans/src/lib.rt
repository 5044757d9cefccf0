//! The changes of the commands that move code in one method (Roberts 1999): a part becomes a method of its own, a message becomes
//! the body of the method that it finds, a temporary comes in place of an expression, and what is assigned to a temporary comes
//! in its place.
#![tactic(auto)]

mod behind;
mod extraction;
mod inlining;
mod lets;

pub use extraction::plan_extraction;
pub use inlining::plan_inlined_message;
pub use lets::{plan_extracted_temporary, plan_inlined_temporary};
