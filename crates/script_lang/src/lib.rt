//! The reader of scripts of refactorings (Roberts 1999): what a text asks for, or its first line that is wrong.
#![tactic(auto)]

mod additions;
mod asked;
mod bytes;
mod fault;
mod lines;
mod parameters;
mod requests;
mod script;
mod verb;
mod words;

pub use additions::split_word;
pub use asked::ScriptLine;
pub use bytes::same_text;
pub use fault::ScriptFault;
pub use lines::{is_blank_line, is_skipped, lines_of};
pub use script::parse_script;
