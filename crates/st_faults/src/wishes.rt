ghost use Rattle.std.specs.Prelude.{Some};
ghost use Rattle.st_faults.specs.Moves.{part_of, expression_part, message_part, literal_part, sequence_part, method_part, closing_part};
ghost use Rattle.st_faults.specs.Wishes.{IsWishOf};

use crate::part::{ExpressionPart, LiteralPart, MessagePart, MethodPart, Part, SequencePart};
use grammar_model::Wanted;

/// What is wanted where a part of an expression comes next, or `None` where the part behind it decides.
fn expression_wish(part: ExpressionPart) -> Option<Wanted>
    ensures { IsWishOf result (expression_part part) }
{
    match part {
        ExpressionPart::Whole | ExpressionPart::BinaryArgument | ExpressionPart::KeywordArgument =>
            Some(Wanted::Operand),
        ExpressionPart::BehindName => None,
        ExpressionPart::BehindSuper | ExpressionPart::BehindSuperOfKeyword => Some(Wanted::End),
        ExpressionPart::BehindSuperOfBinary => Some(Wanted::Identifier),
    }
}

/// What is wanted where a part of messages comes next, or `None` where the part behind it decides.
fn message_wish(part: MessagePart) -> Option<Wanted>
    ensures { IsWishOf result (message_part part) }
{
    match part {
        MessagePart::AnyArgument => Some(Wanted::Operand),
        MessagePart::InCascade => Some(Wanted::End),
        _ => None,
    }
}

/// What is wanted where a part of a literal comes next, or `None` where the part behind it decides.
fn literal_wish(part: LiteralPart) -> Option<Wanted>
    ensures { IsWishOf result (literal_part part) }
{
    match part {
        LiteralPart::Numeral => None,
        LiteralPart::Elements | LiteralPart::Bytes => Some(Wanted::Element),
    }
}

/// What is wanted where a part of a sequence comes next, or `None` where the part behind it decides.
fn sequence_wish(part: SequencePart) -> Option<Wanted>
    ensures { IsWishOf result (sequence_part part) }
{
    match part {
        SequencePart::Items
        | SequencePart::Block
        | SequencePart::Whole
        | SequencePart::Statements => Some(Wanted::Operand),
        SequencePart::Parameter => Some(Wanted::Identifier),
        SequencePart::Names => Some(Wanted::End),
        _ => None,
    }
}

/// What is wanted where a part of a method comes next.
fn method_wish(part: MethodPart) -> Wanted
    ensures { IsWishOf (Some result) (method_part part) }
{
    match part {
        MethodPart::BinaryName(_) | MethodPart::KeywordName(_) => Wanted::Identifier,
        MethodPart::PatternRest(_) | MethodPart::KernelBody => Wanted::Operand,
        _ => Wanted::End,
    }
}

/// What is wanted where a part comes next, or `None` where the part behind it decides.
pub fn wish_of(part: Part) -> Option<Wanted>
    ensures { IsWishOf result (part_of part) }
{
    match part {
        Part::Expression(part) => expression_wish(part),
        Part::Message(part) => message_wish(part),
        Part::Literal(part) => literal_wish(part),
        Part::Sequence(part) => sequence_wish(part),
        Part::Method(part) => Some(method_wish(part)),
        Part::Awaits(_) => Some(Wanted::End),
    }
}
