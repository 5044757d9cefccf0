//! The primitives of strings, symbols and arrays of Smalltalk-80 (Goldberg and Robson 1983).
#![tactic(auto)]

mod items;
mod joining;
mod parts;
mod texts;

pub use items::{gives_array, gives_item, gives_length, stores_item};
pub use joining::joins;
pub use parts::gives_part;
pub use texts::{is_text_before, prints_string, prints_symbol, string_of_symbol, symbol_of_string};
