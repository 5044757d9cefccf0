use token_model::TokenKind;

/// A token where it stands in a text.
#[derive(Clone, Copy)]
pub struct Token<'t> {
    /// What it is.
    pub kind: TokenKind,
    /// Where it begins, in bytes from the text's start.
    pub from: usize,
    /// Where it ends, in bytes from the text's start: the place of the byte behind its last one.
    pub to: usize,
    /// Its bytes, lent from the text.
    pub text: &'t [u8],
}
