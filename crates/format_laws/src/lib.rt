//! The laws of images whose sources are canonical text: that they are valid and are read again, and that their runs are those
//! of the images before. No program text runs here.
#![tactic(auto)]

mod laws;

pub use laws::{law_formatted_files, law_formatted_images};
