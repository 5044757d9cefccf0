//! Changes of images: what a command does to an image, as a list of swaps that take no memory, and that are undone and
//! done again by the same swaps.
#![tactic(auto)]

mod change;
mod changes;
mod laws;
mod part;

pub use change::{Change, apply_change};
pub use changes::{Changes, apply_all, undo_all};
pub use laws::law_change_undone;
