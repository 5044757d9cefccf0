//! Examples of commands and of scripts, held against the definitions: commands that keep the shape of code, commands that
//! change code, and scripts with undo and redo.
//!
//! The functions of this crate are laws on the definitions: they do nothing.
#![tactic(auto)]

mod code_commands;
mod commands;
mod scripts;

pub use code_commands::judges_code_examples;
pub use commands::judges_examples;
pub use scripts::judges_scripts;
