//! What holds of the image of each file-out of Smalltalk-80, and of file-outs in the two dialects. The functions of this
//! crate are laws on the definitions: they do nothing.
#![tactic(auto)]

mod laws;

pub use laws::{
    changes_in_any_order, gives_fileable_images, gives_methods_once, gives_named_classes,
    gives_plain_classes, gives_valid_images, keeps_kernel_in_front, keeps_superclasses_first,
    puts_in_again, reads_the_same_with_braces, settles_any_order, settles_by_moving,
};
