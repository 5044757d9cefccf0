/// What a token is, told apart as far as the grammar tells tokens apart.
#[derive(Clone, Copy, Debug, PartialEq, Eq)]
pub enum Sort {
    /// An identifier other than `super`.
    Name,
    /// `super`.
    Super,
    /// A keyword other than `primitive:`.
    Keyword,
    /// `primitive:`.
    PrimitiveKeyword,
    /// A binary selector that is none of the next four.
    Binary,
    /// A `-` that ends where a numeral begins.
    Sign,
    /// `<`.
    Less,
    /// `>`.
    Greater,
    /// `|`.
    Bar,
    /// Digits alone, of a value up to 65,535.
    SmallNumeral,
    /// Digits alone, of a higher value.
    LargeNumeral,
    /// A numeral with other bytes in it.
    OtherNumeral,
    /// A string, a character or a symbol.
    Constant,
    /// `(`.
    GroupStart,
    /// `[`.
    BlockStart,
    /// `{`.
    BraceStart,
    /// `#(`.
    ArrayStart,
    /// `#[`.
    BytesStart,
    /// `)`.
    GroupEnd,
    /// `]`.
    BlockEnd,
    /// `}`.
    BraceEnd,
    /// The end of the text.
    TextEnd,
    /// `:=` or `_`.
    Assignment,
    /// `:`.
    Colon,
    /// `;`.
    Semicolon,
    /// `.`.
    Period,
    /// `^`.
    Caret,
    /// A metavariable of names, as `` `x ``: an operand or a unary selector of a pattern.
    AnyName,
    /// A metavariable of literals, as `` `#x ``.
    AnyLiteral,
    /// A metavariable of expressions, as `` `@x ``.
    AnyExpression,
    /// A metavariable of statements, as `` `.x `` or `` `.@x ``.
    AnyStatement,
    /// A metavariable of keywords, as `` `k: ``.
    AnyKey,
    /// The keyword of a metavariable of whole messages, as `` `@k: ``.
    AnyMessage,
}
