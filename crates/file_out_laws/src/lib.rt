//! What the laws of commands say of each valid image behind the kernel, and so of the image of each file-out: renamings, look-ups,
//! temporaries, parameters, what is not reached, all commands that keep the shape of code, and all that move no code. The functions
//! of this crate are laws on the definitions: they do nothing.
#![tactic(auto)]

mod commands;
mod lookups;
mod parameters;
mod renamings;
mod stripped;
mod temporaries;

pub use commands::{law_command_files, law_commands, law_matched_commands};
pub use lookups::{
    every_image_has_kernel_chains, law_class_files, law_class_images, law_lookups_agree,
    law_method_files, law_method_images,
};
pub use parameters::{law_changed_files, law_changed_parameters};
pub use renamings::{every_image_may_be_renamed, law_renamed_files, law_renamed_images};
pub use stripped::{law_stripped_files, law_stripped_images};
pub use temporaries::law_renamed_temporaries;
