//! The text that is written of an image is read again, and makes that image. The functions of this crate are laws on the
//! definitions: they do nothing.
#![tactic(auto)]

mod laws;

pub use laws::{
    holds_of_some_kernel, keeps_the_kernel_first, reads_each_image_again, reads_what_was_written,
    says_what_was_written, spells_definitions, writes_the_same_again,
};
