//! Whether a text is one of the grammar of Smalltalk-80: its first lexical fault, its first bracket that is too deep,
//! or its first token that can continue no text. No tree is built and nothing recurs: a stack of what may come next is
//! kept, which grows where a bracket opens.
#![tactic(auto)]

mod brackets;
mod check;
mod expressions;
mod fault;
mod form;
mod lexeme;
mod literals;
mod messages;
mod metas;
mod methods;
mod moves;
mod numeral;
mod part;
mod sequences;
mod sort;
mod stack;
mod wishes;

pub use brackets::{Depth, depth_behind, is_too_deep};
pub use check::{check_doit, check_method, check_pattern};
pub use fault::{ParseFault, word_of};
pub use form::TextForm;
pub use grammar_model::Wanted;
pub use lexeme::{Lexeme, begins_digit};
pub use metas::{sort_in, token_from};
pub use sort::Sort;
pub use token_model::LexFault;
