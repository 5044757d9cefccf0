use st_faults::Sort;
use token_model::TokenKind;

/// A token that is no comment, as a slice of its text.
#[derive(Clone, Copy)]
pub struct Token<'t> {
    /// What it is to the grammar.
    pub sort: Sort,
    /// What it is to the lexer.
    pub kind: TokenKind,
    /// Where it begins, in bytes from the text's start.
    pub from: usize,
    /// The place behind its last byte, in bytes from the text's start.
    pub to: usize,
    /// Its bytes.
    pub text: &'t [u8],
}
