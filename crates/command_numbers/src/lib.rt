//! Whether a command that moves no code may be carried out in an image, and what it makes of it, is the same over the
//! numbers of names in a table and over their texts.
//!
//! The functions of this crate are laws on the definitions: they do nothing.
#![tactic(auto)]

mod laws;

pub use laws::{
    commands_by_names, commands_by_numbers, commands_in_longer_tables, names_of_commands,
    numbers_in_longer_tables, numbers_of_commands, verdicts_by_numbers,
};
