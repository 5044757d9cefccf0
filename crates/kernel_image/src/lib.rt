//! What holds of the image of the kernel's own text, and so of the image of each file-out that is read behind it. The
//! functions of this crate are laws on the definitions: they do nothing.
#![tactic(auto)]

mod laws;

pub use laws::{
    every_image_is_read_again, every_image_is_valid, every_text_is_read_or_refused,
    kernel_has_these_classes, kernel_has_these_methods, kernel_is_read, kernel_is_valid,
    kernel_knows_its_names, kernel_says,
};
