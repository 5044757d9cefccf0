//! What commands ask of the methods of an image: whether `super` stands in one, whether its names mean the same in another
//! class, whether it may go, and whether it may come, go up or go down without a message finding another method (Roberts 1999).
#![tactic(auto)]

mod found;
mod meanings;
mod moves;
mod reached;
mod removable;
mod same;
mod supers;
mod unreached;

pub use found::{Found, named_slot};
pub use meanings::means_same_in_class;
pub use moves::{Moved, Way, owners};
pub use reached::is_child;
pub use removable::{are_same, inherited_slot, is_removable, is_sent_nowhere, object_slot};
pub use supers::is_without_super;
pub use unreached::{
    is_one_reached, is_unreached_down, is_unreached_new, is_unreached_up, moved_down, moved_new,
    moved_up,
};
