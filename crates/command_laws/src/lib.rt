//! Each command keeps runs, and so does each script: in each valid image and in that of each file-out.
//!
//! The functions of this crate are laws on the definitions: they do nothing.
#![tactic(auto)]

mod laws;

pub use laws::{law_effect, law_script_files, law_scripts};
