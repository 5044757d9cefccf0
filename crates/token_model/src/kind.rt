/// The kind of a token, as the language has them (Goldberg and Robson 1983), with brace arrays.
#[derive(Clone, Copy, Debug, PartialEq, Eq)]
pub enum TokenKind {
    /// A letter, then letters and digits.
    Identifier,
    /// An identifier and a colon that no `=` follows.
    Keyword,
    /// One or two of `+ - * / \ ~ < > = @ % & ? ,`, the second never `-`.
    Binary,
    /// `|`, a binary selector and the mark round temporaries.
    Bar,
    /// `:=` or `_`.
    Assign,
    /// `:`.
    Colon,
    /// `;`.
    Semicolon,
    /// `.`.
    Period,
    /// `^`.
    Caret,
    /// `(`.
    Open,
    /// `)`.
    Close,
    /// `[`.
    BlockOpen,
    /// `]`.
    BlockClose,
    /// `{`, in the second dialect.
    BraceOpen,
    /// `}`, in the second dialect.
    BraceClose,
    /// `#(`.
    ArrayOpen,
    /// `#[`.
    BytesOpen,
    /// Bytes between quotes, each quote among them written twice.
    String,
    /// Bytes between double quotes, none of them a double quote.
    Comment,
    /// `$` and one byte.
    Character,
    /// `#` and an identifier, keywords joined, a binary selector or a string.
    Symbol,
    /// An unsigned numeral.
    Numeral,
    /// The end of the text.
    End,
}

/// Which of the two dialects a text is in.
#[derive(Clone, Copy, Debug, PartialEq, Eq)]
pub enum Dialect {
    /// Smalltalk-80 without brace arrays: `{` and `}` begin no token.
    First,
    /// With brace arrays.
    Second,
}
