//! The primitives of integers and characters of Smalltalk-80 (Goldberg and Robson 1983).
#![tactic(auto)]

mod characters;
mod integers;

pub use characters::{
    gives_byte, gives_character, prints_character, prints_integer, string_of_character,
};
pub use integers::{Operation, on_integers};
