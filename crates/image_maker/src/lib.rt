//! An image of a given number of classes and methods, the script that renames them, and the expression that runs them.
#![tactic(auto)]

mod image;
mod laws;
mod script;

pub use image::make_image;
pub use laws::is_written_as_a_file;
pub use script::{make_expression, make_script};
