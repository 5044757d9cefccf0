//! What additions, removals and moves of classes and methods make of an image has the runs of that image.
//! No program text runs here.
#![tactic(auto)]

mod laws;

pub use laws::{
    law_class_commands, law_method_commands, law_moved_methods, law_removed_method,
    law_unsent_selector,
};
