//! Images: the classes, methods and do-its of a Smalltalk-80 file-out, in slots that stay.
#![tactic(auto)]

mod add;
mod class_order;
mod find;
mod image;
mod laws;
mod lend;
mod method_order;
mod open;
mod record;
mod room;
mod swap;
mod tables;
mod tree;

pub use class_order::ClassOrder;
pub use image::Image;
pub use laws::{
    law_chain, law_class_named, law_classes_orderly, law_doits_orderly, law_lookup,
    law_methods_orderly, law_names_added,
};
pub use method_order::MethodOrder;
pub use record::{
    ClassId, ClassIds, ClassRec, DoIt, MethodInfo, MethodRec, MethodSlot, Place, Slot,
};
