ghost use Rattle.std.specs.Prelude.{◌≡◌, Some, None};
ghost use Rattle.grammar_model.specs.Machine.{begin_operand, begin_expression, begin_statement, begin_sequence, begin_body};
ghost use Rattle.st_faults.specs.Moves.{put, moved, Does, only};

use crate::part::{
    ClosingPart, ExpressionPart, LiteralPart, MessagePart, MethodPart, Part, SequencePart,
};
use crate::sort::Sort;

/// Parts that take the place of the one that read a token, in the order in which they come.
#[derive(Clone, Copy)]
pub struct Parts {
    /// What comes next.
    pub first: Option<Part>,
    /// What comes behind it.
    pub second: Option<Part>,
    /// What comes behind these two.
    pub third: Option<Part>,
    /// What comes behind these three.
    pub fourth: Option<Part>,
}

/// What a part does with a token.
#[derive(Clone, Copy)]
pub enum Move {
    /// The token cannot stand here.
    Refuses,
    /// The part is over, and the next one decides.
    Passes,
    /// The token is read, and these parts come next.
    Reads(Parts),
}

/// The token is read, and these parts, if any, come next.
pub fn reads(first: Option<Part>, second: Option<Part>) -> Move
    ensures { result ≡ Move.Reads (only first second) }
{
    Move::Reads(Parts {
        first,
        second,
        third: None,
        fourth: None,
    })
}

/// The first token of an operand that is no name. `below` and `behind` come after the operand.
pub fn begin_operand(sort: Sort, below: Option<Part>, behind: Option<Part>, otherwise: Move) -> Move
    ensures { Does result sort (λ ss k. begin_operand k (put below (put behind ss)) (moved otherwise ss k)) }
{
    let (inside, end) = match sort {
        Sort::Sign => (Some(Part::Literal(LiteralPart::Numeral)), None),
        Sort::SmallNumeral
        | Sort::LargeNumeral
        | Sort::OtherNumeral
        | Sort::Constant
        | Sort::AnyName
        | Sort::AnyLiteral
        | Sort::AnyExpression => (None, None),
        Sort::GroupStart => (
            Some(Part::Expression(ExpressionPart::Whole)),
            Some(Part::Awaits(ClosingPart::Group)),
        ),
        Sort::BlockStart => (
            Some(Part::Sequence(SequencePart::Block)),
            Some(Part::Awaits(ClosingPart::Block)),
        ),
        Sort::BraceStart => (
            Some(Part::Sequence(SequencePart::Items)),
            Some(Part::Awaits(ClosingPart::Brace)),
        ),
        Sort::ArrayStart => (
            Some(Part::Literal(LiteralPart::Elements)),
            Some(Part::Awaits(ClosingPart::Group)),
        ),
        Sort::BytesStart => (
            Some(Part::Literal(LiteralPart::Bytes)),
            Some(Part::Awaits(ClosingPart::Block)),
        ),
        _ => return otherwise,
    };
    Move::Reads(Parts {
        first: inside,
        second: end,
        third: below,
        fourth: behind,
    })
}

/// The first token of an expression. `behind` comes after the expression.
pub fn begin_expression(sort: Sort, behind: Option<Part>, otherwise: Move) -> Move
    ensures { Does result sort (λ ss k. begin_expression k (put behind ss) (moved otherwise ss k)) }
{
    match sort {
        Sort::Name => reads(Some(Part::Expression(ExpressionPart::BehindName)), behind),
        Sort::Super => reads(Some(Part::Expression(ExpressionPart::BehindSuper)), behind),
        _ => begin_operand(
            sort,
            Some(Part::Message(MessagePart::Unary(false))),
            behind,
            otherwise,
        ),
    }
}

/// A period, or the first token of a statement.
pub fn begin_statement(sort: Sort, otherwise: Move) -> Move
    ensures { Does result sort (λ ss k. begin_statement k ss (moved otherwise ss k)) }
{
    match sort {
        Sort::Period => reads(Some(Part::Sequence(SequencePart::Statements)), None),
        Sort::Caret => reads(
            Some(Part::Expression(ExpressionPart::Whole)),
            Some(Part::Sequence(SequencePart::BehindReturn)),
        ),
        Sort::AnyStatement => reads(Some(Part::Sequence(SequencePart::BehindStatement)), None),
        _ => begin_expression(
            sort,
            Some(Part::Sequence(SequencePart::BehindStatement)),
            otherwise,
        ),
    }
}

/// The first token of a sequence.
pub fn begin_sequence(sort: Sort, otherwise: Move) -> Move
    ensures { Does result sort (λ ss k. begin_sequence k ss (moved otherwise ss k)) }
{
    match sort {
        Sort::Bar => reads(Some(Part::Sequence(SequencePart::Names)), None),
        _ => begin_statement(sort, otherwise),
    }
}

/// The first token of a method's body, of the kernel or not.
pub fn begin_body(kernel: bool, sort: Sort, otherwise: Move) -> Move
    ensures { Does result sort (λ ss k. begin_body kernel k ss (moved otherwise ss k)) }
{
    match sort {
        Sort::Less if kernel => reads(Some(Part::Method(MethodPart::Primitive)), None),
        _ => begin_sequence(sort, otherwise),
    }
}
