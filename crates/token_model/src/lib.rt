//! The tokens of Smalltalk-80: their kinds, and what each is as a piece of a whole text.
//!
//! The definitions take the dialect; the second has brace arrays. The functions of this crate are
//! laws on the definitions: they do nothing.
#![tactic(auto)]

mod fault;
mod kind;
mod laws;

pub use fault::LexFault;
pub use kind::{Dialect, TokenKind};
pub use laws::{
    differs_in_braces_alone, has_at_most_one_token, has_one_list, has_token_or_fault,
    joins_to_the_text, lies_inside,
};
