//! The tokens of a Smalltalk-80 text, one by one and borrowed from the text. Nothing here takes
//! memory.
#![tactic(auto)]

mod bytes;
mod marks;
mod next;
mod numerals;
mod quotes;
mod runs;
mod token;
mod token_iter;
mod words;

pub use next::next_token;
pub use token::Token;
pub use token_iter::{TokenIter, gives_the_tokens, tokens};
pub use token_model::{LexFault, TokenKind};
