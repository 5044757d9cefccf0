//! Change files: what is filed in after the text of an image to have another one. Classes, methods and do-its that are in both
//! images as they are, at their places among those that both have, are not named.
#![tactic(auto)]

mod changes;
mod class_edits;
mod classes;
mod differences;
mod doit_edits;
mod keys;
mod method_edits;
mod methods;
mod pieces;

pub use changes::write_changes;
pub use differences::{Differences, Member, differs};
