// What a reader awaits, in order.

use parse_events::{BoxedComments, Declarations};
use rb_base::Text;

/// What may come next in a text. Each part takes tokens, is over at a token that it does not take, or refuses it.
#[derive(Drop)]
pub enum Part {
    /// Of an expression.
    Expression(ExpressionPart),
    /// Of messages.
    Message(MessagePart),
    /// Of a literal.
    Literal(LiteralPart),
    /// Of what a block declares.
    Block(BlockPart),
    /// Of statements and brace arrays.
    Sequence(SequencePart),
    /// Of what a text declares.
    Head(HeadPart),
}

/// Operands and assignments. `from` is where the expression begins.
#[derive(Drop)]
pub enum ExpressionPart {
    /// An expression.
    Whole,
    /// The argument of a binary message.
    BinaryArgument,
    /// The argument of a keyword.
    KeywordArgument,
    /// Behind the first name of an expression: a variable, which may be `super`, or the target of an assignment.
    BehindName {
        from: u32,
        to: u32,
        name: Text,
        is_super: bool,
    },
    /// Behind the value of an assignment.
    BehindValue {
        from: u32,
    },
    /// The operand of a whole message of a pattern.
    AnyArgument,
}

/// Which messages may come to a receiver.
#[derive(Clone, Copy)]
pub enum Row {
    /// The receiver is `super` alone, to which a message must come.
    Super,
    /// Messages of each kind.
    Unary,
    /// No unary ones.
    Binary,
}

/// To what a message of keywords goes.
#[derive(Clone, Copy)]
pub enum Target {
    /// To a receiver that begins at `from`. A cascade can go on from the message or not.
    Receiver { from: u32, told: bool },
    /// To the receiver of a cascade that begins at `from`, of so many messages with this one.
    Cascade { from: u32, messages: u32 },
}

/// Messages. `from` is where the receiver begins.
#[derive(Drop)]
pub enum MessagePart {
    /// The messages of an expression, and its cascade, which can go on from the last message or not.
    All {
        from: u32,
        row: Row,
        told: bool,
    },
    /// The messages of a keyword's argument.
    OfKeyword {
        from: u32,
        row: Row,
    },
    /// The messages of a binary message's argument, which may be `super` alone so far.
    OfBinary {
        from: u32,
        is_super: bool,
    },
    /// Behind the argument of a binary message, which stands in a cascade if there is no `from`.
    BehindArgument {
        from: Option<u32>,
        selector: Text,
    },
    /// Behind an argument of a keyword message.
    BehindKeyword {
        target: Target,
        arguments: u32,
        selector: Text,
    },
    /// Behind a whole message of a pattern, from which a cascade can go on or not.
    BehindAny {
        from: u32,
        told: bool,
    },
    /// A message behind a semicolon, the last of so many.
    InCascade {
        from: u32,
        messages: u32,
    },
    /// Behind a message of a cascade, the last of so many, which may be a whole message of a pattern.
    BehindCascade {
        from: u32,
        messages: u32,
        any: bool,
    },
}

/// Literals.
#[derive(Drop)]
pub enum LiteralPart {
    /// The numeral behind a sign.
    Numeral { sign: Text },
    /// The elements of an array, of which there were so many.
    Elements { count: u32 },
    /// The elements of an array behind keywords that end at `to`, the last of so many elements.
    BehindKeyword { symbol: Text, to: u32, count: u32 },
    /// The numbers of a byte array, of which there were so many.
    Bytes { count: u32 },
    /// Behind a literal that is an operand and begins at `from`.
    BehindOperand { from: u32 },
}

/// Where statements stand.
#[derive(Drop)]
pub enum Enclosure {
    /// In no block.
    Text,
    /// In a block that begins at `from`. The comments before it wait until it is over.
    Block { from: u32, outer: BoxedComments },
}

/// What a block declares.
#[derive(Drop)]
pub enum BlockPart {
    /// Behind the bracket.
    Start {
        enclosure: Enclosure,
    },
    /// A parameter behind its colon.
    Parameter {
        enclosure: Enclosure,
        parameters: Declarations,
    },
    /// Behind a parameter.
    BehindParameter {
        enclosure: Enclosure,
        parameters: Declarations,
    },
    /// Temporaries, or none.
    Temporaries {
        enclosure: Enclosure,
        parameters: Declarations,
    },
    /// Temporaries behind their first bar.
    Names {
        enclosure: Enclosure,
        parameters: Declarations,
        temporaries: Declarations,
    },
}

/// What may stand behind the statements so far, up to the closing mark.
#[derive(Clone, Copy)]
pub enum Rest {
    /// Statements and periods.
    Any,
    /// Periods alone, behind a return.
    Periods,
    /// Nothing, behind a primitive.
    Nothing,
}

/// Statements, brace arrays and closing marks.
#[derive(Drop)]
pub enum SequencePart {
    /// Statements, of which so many began.
    Statements {
        enclosure: Enclosure,
        count: u32,
        rest: Rest,
    },
    /// Behind a statement that begins at `from`, the last of so many, which may be a return.
    BehindStatement {
        from: u32,
        enclosure: Enclosure,
        count: u32,
        returned: bool,
    },
    /// Behind the value of a return that begins at `from`.
    BehindReturn {
        from: u32,
    },
    /// The expressions of a brace array that begins at `from`, of which so many began. One may come, or a period must.
    Items {
        from: u32,
        count: u32,
        further: bool,
    },
    /// The parenthesis behind a group.
    GroupEnd,
    /// A pattern, which is one expression.
    Pattern,
    /// Behind a pattern that begins at `from`.
    BehindPattern {
        from: u32,
    },
}

/// What a text declares. A flag says that the method is of the kernel.
#[derive(Drop)]
pub enum HeadPart {
    /// A method's pattern.
    Pattern { kernel: bool },
    /// The argument of a binary pattern.
    Argument { kernel: bool },
    /// The argument of a keyword in a pattern.
    KeywordArgument { kernel: bool },
    /// Behind the argument of a keyword in a pattern.
    BehindArgument { kernel: bool },
    /// A primitive, temporaries or statements of a method.
    MethodTemporaries { kernel: bool },
    /// Temporaries or statements of a do-it.
    DoitTemporaries,
    /// Temporaries behind their first bar.
    Names,
    /// The keyword of a primitive.
    Primitive,
    /// The number of a primitive.
    PrimitiveNumber,
    /// The bracket behind a primitive.
    PrimitiveEnd,
}
