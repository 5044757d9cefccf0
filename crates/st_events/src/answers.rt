// What a part does with a token.
ghost use Rattle.std.specs.Prelude.{◌≡◌};
ghost use Rattle.tree_model.specs.Tree.{LiteralOf};
ghost use Rattle.grammar_model.specs.Terminal.{Text};
ghost use Rattle.st_faults.specs.Sorts.{terminal};
ghost use Rattle.st_events.specs.Classes.{is_name, is_plain_name, is_super, is_binary, is_message, is_element, begins_operand, begins_statement};
ghost use Rattle.st_events.specs.Answers.{taken_if, row_of, messages_answer, operators_answer, any_answer, keyword_answer, statements_answer, body_answer, answer};

use crate::part::{
    BlockPart, Enclosure, ExpressionPart, HeadPart, LiteralPart, MessagePart, Part, Rest, Row,
    SequencePart, Target,
};
use st_faults::Sort;

/// What a part does with a token.
#[derive(Clone, Copy)]
pub enum Answer {
    /// The token cannot stand here.
    Refuses,
    /// The part is over, and the next one decides.
    Passes,
    /// The part takes the token.
    Takes,
}

/// A part takes some tokens, and has one answer to all others.
#[inline]
fn taken_if(takes: bool, otherwise: Answer) -> Answer
    ensures { result ≡ taken_if takes otherwise }
{
    if takes { Answer::Takes } else { otherwise }
}

/// Whether a token of the sort is a unary selector.
#[inline]
fn is_name(sort: Sort) -> bool
    ensures { (s : Text) (l : LiteralOf Text) → is_name (terminal sort s l) ≡ result }
{
    match sort {
        Sort::Name | Sort::Super | Sort::AnyName => true,
        _ => false,
    }
}

/// Whether a token of the sort is an identifier.
#[inline]
fn is_plain_name(sort: Sort) -> bool
    ensures { (s : Text) (l : LiteralOf Text) → is_plain_name (terminal sort s l) ≡ result }
{
    match sort {
        Sort::Name | Sort::Super => true,
        _ => false,
    }
}

/// Whether a token of the sort is `super`.
#[inline]
pub fn is_super(sort: Sort) -> bool
    ensures { (s : Text) (l : LiteralOf Text) → is_super (terminal sort s l) ≡ result }
{
    match sort {
        Sort::Super => true,
        _ => false,
    }
}

/// Whether a token of the sort is a binary selector.
#[inline]
fn is_binary(sort: Sort) -> bool
    ensures { (s : Text) (l : LiteralOf Text) → is_binary (terminal sort s l) ≡ result }
{
    match sort {
        Sort::Binary | Sort::Sign | Sort::Less | Sort::Greater | Sort::Bar => true,
        _ => false,
    }
}

/// Whether a message begins with a token of the sort.
#[inline]
fn is_message(sort: Sort) -> bool
    ensures { (s : Text) (l : LiteralOf Text) → is_message (terminal sort s l) ≡ result }
{
    match sort {
        Sort::Name
        | Sort::Super
        | Sort::AnyName
        | Sort::Keyword
        | Sort::PrimitiveKeyword
        | Sort::AnyKey
        | Sort::AnyMessage
        | Sort::Binary
        | Sort::Sign
        | Sort::Less
        | Sort::Greater
        | Sort::Bar => true,
        _ => false,
    }
}

/// Whether a token of the sort begins an element of an array, or closes the array.
#[inline]
fn is_element(sort: Sort) -> bool
    ensures { (s : Text) (l : LiteralOf Text) → is_element (terminal sort s l) ≡ result }
{
    match sort {
        Sort::Name
        | Sort::Super
        | Sort::Keyword
        | Sort::PrimitiveKeyword
        | Sort::Binary
        | Sort::Sign
        | Sort::Less
        | Sort::Greater
        | Sort::Bar
        | Sort::SmallNumeral
        | Sort::LargeNumeral
        | Sort::OtherNumeral
        | Sort::Constant
        | Sort::GroupStart
        | Sort::BlockStart
        | Sort::ArrayStart
        | Sort::BytesStart
        | Sort::GroupEnd => true,
        _ => false,
    }
}

/// Whether an operand begins with a token of the sort.
#[inline]
fn begins_operand(sort: Sort) -> bool
    ensures { (s : Text) (l : LiteralOf Text) → begins_operand (terminal sort s l) ≡ result }
{
    match sort {
        Sort::Name
        | Sort::Super
        | Sort::Sign
        | Sort::SmallNumeral
        | Sort::LargeNumeral
        | Sort::OtherNumeral
        | Sort::Constant
        | Sort::GroupStart
        | Sort::BlockStart
        | Sort::BraceStart
        | Sort::ArrayStart
        | Sort::BytesStart
        | Sort::AnyName
        | Sort::AnyLiteral
        | Sort::AnyExpression => true,
        _ => false,
    }
}

/// Whether a token of the sort is a period or begins a statement.
#[inline]
fn begins_statement(sort: Sort) -> bool
    ensures { (s : Text) (l : LiteralOf Text) → begins_statement (terminal sort s l) ≡ result }
{
    match sort {
        Sort::Period | Sort::Caret | Sort::AnyStatement => true,
        _ => begins_operand(sort),
    }
}

/// The messages that may come to the first name of an expression, which is `super` or not.
#[inline]
pub fn row_of(is_super: bool) -> Row
    ensures { result ≡ row_of is_super }
{
    if is_super { Row::Super } else { Row::Unary }
}

/// What the messages of an expression do with a token of the sort. A cascade can go on from the last one or not.
#[inline]
fn messages_answer(row: Row, told: bool, sort: Sort) -> Answer
    ensures { (s : Text) (l : LiteralOf Text) → messages_answer row told (terminal sort s l) ≡ result }
{
    match row {
        Row::Super => taken_if(is_message(sort), Answer::Refuses),
        Row::Unary => match sort {
            Sort::Semicolon => taken_if(told, Answer::Refuses),
            _ => taken_if(is_message(sort), Answer::Passes),
        },
        Row::Binary => match sort {
            Sort::Semicolon => taken_if(told, Answer::Refuses),
            Sort::Name | Sort::Super | Sort::AnyName => Answer::Passes,
            _ => taken_if(is_message(sort), Answer::Passes),
        },
    }
}

/// What the messages of a keyword's argument do with a token of the sort.
#[inline]
fn operators_answer(row: Row, sort: Sort) -> Answer
    ensures { (s : Text) (l : LiteralOf Text) → operators_answer row (terminal sort s l) ≡ result }
{
    match row {
        Row::Super => taken_if(is_name(sort) || is_binary(sort), Answer::Refuses),
        Row::Unary => taken_if(is_name(sort) || is_binary(sort), Answer::Passes),
        Row::Binary => taken_if(is_binary(sort), Answer::Passes),
    }
}

/// What comes behind a whole message of a pattern with a token of the sort. A cascade can go on from the message or not.
#[inline]
fn any_answer(told: bool, sort: Sort) -> Answer
    ensures { (s : Text) (l : LiteralOf Text) → any_answer told (terminal sort s l) ≡ result }
{
    match sort {
        Sort::Keyword | Sort::PrimitiveKeyword | Sort::AnyKey | Sort::AnyMessage => Answer::Refuses,
        Sort::Semicolon => taken_if(told, Answer::Refuses),
        _ => Answer::Passes,
    }
}

/// What the keywords of a message do with a token of the sort. A cascade can go on from the message or not.
#[inline]
fn keyword_answer(told: bool, sort: Sort) -> Answer
    ensures { (s : Text) (l : LiteralOf Text) → keyword_answer told (terminal sort s l) ≡ result }
{
    match sort {
        Sort::Keyword | Sort::PrimitiveKeyword | Sort::AnyKey => Answer::Takes,
        Sort::AnyMessage => Answer::Refuses,
        Sort::Semicolon => taken_if(told, Answer::Refuses),
        _ => Answer::Passes,
    }
}

/// What statements do with a token of the sort.
#[inline]
fn statements_answer(enclosure: &Enclosure, rest: Rest, sort: Sort) -> Answer
    ensures { (s : Text) (l : LiteralOf Text) → statements_answer (terminal sort s l) rest enclosure.now ≡ result }
{
    match sort {
        Sort::GroupEnd | Sort::BraceEnd => Answer::Refuses,
        Sort::BlockEnd => match enclosure {
            Enclosure::Block { .. } => Answer::Takes,
            Enclosure::Text => Answer::Refuses,
        },
        Sort::TextEnd => match enclosure {
            Enclosure::Block { .. } => Answer::Refuses,
            Enclosure::Text => Answer::Takes,
        },
        _ => match rest {
            Rest::Any => taken_if(begins_statement(sort), Answer::Refuses),
            Rest::Periods => taken_if(sort == Sort::Period, Answer::Refuses),
            Rest::Nothing => Answer::Refuses,
        },
    }
}

/// What the body of a method, of the kernel or not, or of a do-it does with a token of the sort.
#[inline]
fn body_answer(kernel: bool, sort: Sort) -> Answer
    ensures { (s : Text) (l : LiteralOf Text) → body_answer kernel (terminal sort s l) ≡ result }
{
    match sort {
        Sort::Bar | Sort::TextEnd => Answer::Takes,
        Sort::Less => taken_if(kernel, Answer::Refuses),
        _ => taken_if(begins_statement(sort), Answer::Refuses),
    }
}

/// What a part of an expression does with a token of the sort.
#[inline]
fn expression_answer(part: &ExpressionPart, sort: Sort) -> Answer
    ensures { (s : Text) (l : LiteralOf Text) → answer (Part.Expression part.now) (terminal sort s l) ≡ result }
{
    match part {
        ExpressionPart::Whole | ExpressionPart::BinaryArgument | ExpressionPart::KeywordArgument =>
            taken_if(begins_operand(sort), Answer::Refuses),
        ExpressionPart::BehindName { is_super, .. } => match sort {
            Sort::Assignment => Answer::Takes,
            _ => messages_answer(row_of(*is_super), false, sort),
        },
        ExpressionPart::BehindValue { .. } => Answer::Passes,
        ExpressionPart::AnyArgument => taken_if(sort == Sort::AnyExpression, Answer::Refuses),
    }
}

/// What a part of messages does with a token of the sort.
#[inline]
fn message_answer(part: &MessagePart, sort: Sort) -> Answer
    ensures { (s : Text) (l : LiteralOf Text) → answer (Part.Message part.now) (terminal sort s l) ≡ result }
{
    match part {
        MessagePart::All { row, told, .. } => messages_answer(*row, *told, sort),
        MessagePart::OfKeyword { row, .. } => operators_answer(*row, sort),
        MessagePart::OfBinary { is_super, .. } => {
            let otherwise = if *is_super {
                Answer::Refuses
            } else {
                Answer::Passes
            };
            taken_if(is_name(sort), otherwise)
        }
        MessagePart::BehindArgument { .. } => Answer::Passes,
        MessagePart::BehindKeyword { target, .. } => match target {
            Target::Receiver { told, .. } => keyword_answer(*told, sort),
            Target::Cascade { .. } => keyword_answer(true, sort),
        },
        MessagePart::BehindAny { told, .. } => any_answer(*told, sort),
        MessagePart::InCascade { .. } => taken_if(is_message(sort), Answer::Refuses),
        MessagePart::BehindCascade { any, .. } => if *any {
            any_answer(true, sort)
        } else {
            taken_if(sort == Sort::Semicolon, Answer::Passes)
        },
    }
}

/// What a part of a literal does with a token of the sort.
#[inline]
fn literal_answer(part: &LiteralPart, sort: Sort) -> Answer
    ensures { (s : Text) (l : LiteralOf Text) → answer (Part.Literal part.now) (terminal sort s l) ≡ result }
{
    match part {
        LiteralPart::Numeral { .. } => match sort {
            Sort::SmallNumeral | Sort::LargeNumeral | Sort::OtherNumeral => Answer::Takes,
            _ => Answer::Refuses,
        },
        LiteralPart::Elements { .. } | LiteralPart::BehindKeyword { .. } => taken_if(
            is_element(sort),
            Answer::Refuses,
        ),
        LiteralPart::Bytes { .. } => match sort {
            Sort::SmallNumeral | Sort::LargeNumeral | Sort::BlockEnd => Answer::Takes,
            _ => Answer::Refuses,
        },
        LiteralPart::BehindOperand { .. } => Answer::Passes,
    }
}

/// What a part of a block's head does with a token of the sort.
#[inline]
fn block_answer(part: &BlockPart, sort: Sort) -> Answer
    ensures { (s : Text) (l : LiteralOf Text) → answer (Part.Block part.now) (terminal sort s l) ≡ result }
{
    match part {
        BlockPart::Start { enclosure } => match sort {
            Sort::Colon | Sort::Bar => Answer::Takes,
            _ => statements_answer(enclosure, Rest::Any, sort),
        },
        BlockPart::Parameter { .. } => taken_if(is_plain_name(sort), Answer::Refuses),
        BlockPart::BehindParameter { enclosure, .. } => match sort {
            Sort::Colon | Sort::Bar => Answer::Takes,
            _ => statements_answer(enclosure, Rest::Nothing, sort),
        },
        BlockPart::Temporaries { enclosure, .. } => match sort {
            Sort::Bar => Answer::Takes,
            _ => statements_answer(enclosure, Rest::Any, sort),
        },
        BlockPart::Names { .. } => taken_if(
            is_plain_name(sort) || sort == Sort::Bar,
            Answer::Refuses,
        ),
    }
}

/// What a part of a sequence does with a token of the sort.
#[inline]
fn sequence_answer(part: &SequencePart, sort: Sort) -> Answer
    ensures { (s : Text) (l : LiteralOf Text) → answer (Part.Sequence part.now) (terminal sort s l) ≡ result }
{
    match part {
        SequencePart::Statements {
            enclosure,
            rest,
            ..
        } => statements_answer(enclosure, *rest, sort),
        SequencePart::BehindStatement { enclosure, .. } => statements_answer(
            enclosure,
            Rest::Periods,
            sort,
        ),
        SequencePart::BehindReturn { .. } => Answer::Passes,
        SequencePart::Items { further, .. } => match sort {
            Sort::BraceEnd => Answer::Takes,
            Sort::Period => taken_if(*further, Answer::Refuses),
            _ => taken_if(!*further && begins_operand(sort), Answer::Refuses),
        },
        SequencePart::GroupEnd => taken_if(sort == Sort::GroupEnd, Answer::Refuses),
        SequencePart::Pattern => taken_if(begins_operand(sort), Answer::Refuses),
        SequencePart::BehindPattern { .. } => taken_if(sort == Sort::TextEnd, Answer::Refuses),
    }
}

/// What a part of a text's head does with a token of the sort.
#[inline]
fn head_answer(part: &HeadPart, sort: Sort) -> Answer
    ensures { (s : Text) (l : LiteralOf Text) → answer (Part.Head part.now) (terminal sort s l) ≡ result }
{
    match part {
        HeadPart::Pattern { .. } => match sort {
            Sort::Keyword | Sort::PrimitiveKeyword | Sort::AnyKey => Answer::Takes,
            _ => taken_if(is_plain_name(sort) || is_binary(sort), Answer::Refuses),
        },
        HeadPart::Argument { .. } | HeadPart::KeywordArgument { .. } => taken_if(
            is_plain_name(sort),
            Answer::Refuses,
        ),
        HeadPart::BehindArgument { kernel } => match sort {
            Sort::Keyword | Sort::PrimitiveKeyword | Sort::AnyKey => Answer::Takes,
            _ => body_answer(*kernel, sort),
        },
        HeadPart::MethodTemporaries { kernel } => body_answer(*kernel, sort),
        HeadPart::DoitTemporaries => body_answer(false, sort),
        HeadPart::Names => taken_if(is_plain_name(sort) || sort == Sort::Bar, Answer::Refuses),
        HeadPart::Primitive => taken_if(sort == Sort::PrimitiveKeyword, Answer::Refuses),
        HeadPart::PrimitiveNumber => taken_if(sort == Sort::SmallNumeral, Answer::Refuses),
        HeadPart::PrimitiveEnd => taken_if(sort == Sort::Greater, Answer::Refuses),
    }
}

/// What a part does with a token of the sort.
#[inline]
pub fn answer_of(part: &Part, sort: Sort) -> Answer
    ensures { (s : Text) (l : LiteralOf Text) → answer part.now (terminal sort s l) ≡ result }
{
    match part {
        Part::Expression(part) => expression_answer(part, sort),
        Part::Message(part) => message_answer(part, sort),
        Part::Literal(part) => literal_answer(part, sort),
        Part::Block(part) => block_answer(part, sort),
        Part::Sequence(part) => sequence_answer(part, sort),
        Part::Head(part) => head_answer(part, sort),
    }
}
