//! Whether a command, of any kind, may be carried out in an image, and what it makes of it, is the same over the numbers of
//! names in a table and over their texts.
//!
//! The functions of this crate are laws on the definitions: they do nothing.
#![tactic(auto)]

mod laws;

pub use laws::{
    all_commands_by_names, all_commands_by_numbers, all_commands_in_longer_tables,
    all_verdicts_by_numbers, names_of_all_commands, numbers_of_all_commands,
};
