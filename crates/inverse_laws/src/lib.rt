//! The laws of renamings the other way: that the image before a renaming matches the one after with the inverse maps. No
//! program text runs here.
#![tactic(auto)]

mod commands;
mod laws;
mod names;
mod renamed;

pub use commands::{law_command_files_back, law_commands_back};
pub use laws::law_matched_back;
pub use names::{law_names_back, law_taken_back};
pub use renamed::law_renamed_back;
