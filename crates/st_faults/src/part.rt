/// What may come next in a text of the grammar.
#[derive(Clone, Copy)]
pub enum Part {
    /// Of an expression.
    Expression(ExpressionPart),
    /// Of messages.
    Message(MessagePart),
    /// Of a literal.
    Literal(LiteralPart),
    /// Of a sequence.
    Sequence(SequencePart),
    /// Of a method.
    Method(MethodPart),
    /// A closing mark.
    Awaits(ClosingPart),
}

/// Operands, and what stands behind the first name of one.
#[derive(Clone, Copy)]
pub enum ExpressionPart {
    /// An expression.
    Whole,
    /// The argument of a binary message.
    BinaryArgument,
    /// The argument of a keyword.
    KeywordArgument,
    /// Behind the first name of an expression.
    BehindName,
    /// Behind `super` at the start of an expression.
    BehindSuper,
    /// Behind `super` as the argument of a binary message.
    BehindSuperOfBinary,
    /// Behind `super` as the argument of a keyword.
    BehindSuperOfKeyword,
}

/// Messages. A flag says that a message was sent from which a cascade can go on.
#[derive(Clone, Copy)]
pub enum MessagePart {
    /// The unary messages of a binary message's argument.
    UnaryOfBinary,
    /// The unary messages of a keyword's argument, then its binary ones.
    UnaryOfKeyword,
    /// The binary messages of a keyword's argument.
    BinaryOfKeyword,
    /// The messages of an expression, unary ones first.
    Unary(bool),
    /// The messages of an expression, binary ones first.
    Binary(bool),
    /// The further keywords of an expression's message.
    Keyword(bool),
    /// The operand of a whole message of a pattern.
    AnyArgument,
    /// Behind a whole message of a pattern.
    BehindAny(bool),
    /// A message of a cascade.
    InCascade,
    /// Behind a message of a cascade.
    BehindInCascade,
}

/// Literals.
#[derive(Clone, Copy)]
pub enum LiteralPart {
    /// The numeral behind a sign.
    Numeral,
    /// The elements of an array.
    Elements,
    /// The numbers of a byte array.
    Bytes,
}

/// Statements, blocks and brace arrays.
#[derive(Clone, Copy)]
pub enum SequencePart {
    /// The expressions of a brace array.
    Items,
    /// Behind an expression of a brace array.
    FurtherItem,
    /// What stands between the brackets of a block.
    Block,
    /// A block parameter behind its colon.
    Parameter,
    /// Behind a block parameter.
    Parameters,
    /// Temporaries and statements.
    Whole,
    /// Temporaries behind their first bar.
    Names,
    /// Statements.
    Statements,
    /// Behind a statement.
    BehindStatement,
    /// Behind a return.
    BehindReturn,
}

/// Methods. A flag says that the method is of the kernel.
#[derive(Clone, Copy)]
pub enum MethodPart {
    /// A pattern.
    Pattern(bool),
    /// The argument of a binary pattern.
    BinaryName(bool),
    /// The argument of a keyword in a pattern.
    KeywordName(bool),
    /// Behind an argument of a keyword in a pattern.
    PatternRest(bool),
    /// The body of a method of the kernel.
    KernelBody,
    /// The keyword of a primitive.
    Primitive,
    /// The number of a primitive.
    PrimitiveNumber,
    /// The closing bracket of a primitive.
    PrimitiveEnd,
}

/// A closing mark that must come.
#[derive(Clone, Copy)]
pub enum ClosingPart {
    /// `)`.
    Group,
    /// `]`.
    Block,
    /// `}`.
    Brace,
    /// The end of the text.
    Text,
}
