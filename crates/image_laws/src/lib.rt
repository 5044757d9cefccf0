//! Laws of images that change: a change and the change back, what an image becomes when a class or a method is put in
//! at a place or taken out of it, and that it stays valid. The functions of this crate do nothing; each contract is the law.
#![tactic(auto)]

mod placed;
mod slots;
mod swapped;
mod undone;
mod views;

pub use placed::{law_class_placed, law_class_unused, law_method_placed, law_told_apart};
pub use slots::{law_class_orderly, law_classes_valid, law_superclasses_first};
pub use swapped::{law_classes_swapped, law_doits_swapped, law_methods_swapped};
pub use undone::{law_live_undone, law_source_undone, law_swap_undone};
pub use views::{law_classes_live, law_methods_live};
