ghost use Rattle.std.specs.Prelude.{◌≡◌, ◌∷◌, Some};
ghost use Rattle.grammar_model.specs.Machine.{step, UnaryOfBinary, UnaryOfKeyword, BinaryOfKeyword, UnaryMessages, BinaryMessages, KeywordMessages, AnyArgument, BehindAnyMessage, TheMessage, TheCascade};
ghost use Rattle.st_faults.specs.Moves.{message_part, only, Does};

use crate::moves::{Move, reads};
use crate::part::{ExpressionPart, MessagePart, Part};
use crate::sort::Sort;

/// A binary message, with what follows its argument.
fn binary(behind: MessagePart) -> Move
    ensures { result ≡ Move.Reads (only (Some (Part.Expression ExpressionPart.BinaryArgument)) (Some (Part.Message behind))) }
{
    reads(
        Some(Part::Expression(ExpressionPart::BinaryArgument)),
        Some(Part::Message(behind)),
    )
}

/// A keyword, with what follows its argument.
fn keyword(behind: MessagePart) -> Move
    ensures { result ≡ Move.Reads (only (Some (Part.Expression ExpressionPart.KeywordArgument)) (Some (Part.Message behind))) }
{
    reads(
        Some(Part::Expression(ExpressionPart::KeywordArgument)),
        Some(Part::Message(behind)),
    )
}

/// The first token of a whole message of a pattern. A cascade can go on from the message or not.
pub fn any_message(told: bool) -> Move
    ensures { result ≡ Move.Reads (only (Some (Part.Message MessagePart.AnyArgument)) (Some (Part.Message (MessagePart.BehindAny told)))) }
{
    reads(
        Some(Part::Message(MessagePart::AnyArgument)),
        Some(Part::Message(MessagePart::BehindAny(told))),
    )
}

/// The token behind an operand or a unary message in a binary message's argument.
fn unary_of_binary(sort: Sort) -> Move
    ensures { Does result sort (λ ss k. step (UnaryOfBinary ∷ ss) k) }
{
    match sort {
        Sort::Name | Sort::Super | Sort::AnyName => reads(
            Some(Part::Message(MessagePart::UnaryOfBinary)),
            None,
        ),
        _ => Move::Passes,
    }
}

/// The token behind an operand or a unary message in a keyword's argument.
fn unary_of_keyword(sort: Sort) -> Move
    ensures { Does result sort (λ ss k. step (UnaryOfKeyword ∷ ss) k) }
{
    match sort {
        Sort::Name | Sort::Super | Sort::AnyName => reads(
            Some(Part::Message(MessagePart::UnaryOfKeyword)),
            None,
        ),
        Sort::Binary | Sort::Sign | Sort::Less | Sort::Greater | Sort::Bar => binary(
            MessagePart::BinaryOfKeyword,
        ),
        _ => Move::Passes,
    }
}

/// The token behind a binary message in a keyword's argument.
fn binary_of_keyword(sort: Sort) -> Move
    ensures { Does result sort (λ ss k. step (BinaryOfKeyword ∷ ss) k) }
{
    match sort {
        Sort::Binary | Sort::Sign | Sort::Less | Sort::Greater | Sort::Bar => binary(
            MessagePart::BinaryOfKeyword,
        ),
        _ => Move::Passes,
    }
}

/// The token behind an operand or a unary message of an expression.
fn unary_messages(told: bool, sort: Sort) -> Move
    ensures { Does result sort (λ ss k. step (UnaryMessages told ∷ ss) k) }
{
    match sort {
        Sort::Name | Sort::Super | Sort::AnyName => reads(
            Some(Part::Message(MessagePart::Unary(true))),
            None,
        ),
        Sort::Binary | Sort::Sign | Sort::Less | Sort::Greater | Sort::Bar => binary(
            MessagePart::Binary(true),
        ),
        Sort::Keyword | Sort::PrimitiveKeyword | Sort::AnyKey => keyword(MessagePart::Keyword(
            true,
        )),
        Sort::AnyMessage => any_message(true),
        Sort::Semicolon if told => reads(Some(Part::Message(MessagePart::InCascade)), None),
        Sort::Semicolon => Move::Refuses,
        _ => Move::Passes,
    }
}

/// The token behind a binary message of an expression.
fn binary_messages(told: bool, sort: Sort) -> Move
    ensures { Does result sort (λ ss k. step (BinaryMessages told ∷ ss) k) }
{
    match sort {
        Sort::Binary | Sort::Sign | Sort::Less | Sort::Greater | Sort::Bar => binary(
            MessagePart::Binary(true),
        ),
        Sort::Keyword | Sort::PrimitiveKeyword | Sort::AnyKey => keyword(MessagePart::Keyword(
            true,
        )),
        Sort::AnyMessage => any_message(true),
        Sort::Semicolon if told => reads(Some(Part::Message(MessagePart::InCascade)), None),
        Sort::Semicolon => Move::Refuses,
        _ => Move::Passes,
    }
}

/// The token behind a keyword's argument.
fn keyword_messages(told: bool, sort: Sort) -> Move
    ensures { Does result sort (λ ss k. step (KeywordMessages told ∷ ss) k) }
{
    match sort {
        Sort::Keyword | Sort::PrimitiveKeyword | Sort::AnyKey => keyword(MessagePart::Keyword(
            told,
        )),
        Sort::AnyMessage => Move::Refuses,
        Sort::Semicolon if told => reads(Some(Part::Message(MessagePart::InCascade)), None),
        Sort::Semicolon => Move::Refuses,
        _ => Move::Passes,
    }
}

/// The operand of a whole message of a pattern.
fn any_argument(sort: Sort) -> Move
    ensures { Does result sort (λ ss k. step (AnyArgument ∷ ss) k) }
{
    match sort {
        Sort::AnyExpression => reads(None, None),
        _ => Move::Refuses,
    }
}

/// The token behind a whole message of a pattern.
fn behind_any(told: bool, sort: Sort) -> Move
    ensures { Does result sort (λ ss k. step (BehindAnyMessage told ∷ ss) k) }
{
    match sort {
        Sort::Keyword | Sort::PrimitiveKeyword | Sort::AnyKey | Sort::AnyMessage => Move::Refuses,
        Sort::Semicolon if told => reads(Some(Part::Message(MessagePart::InCascade)), None),
        Sort::Semicolon => Move::Refuses,
        _ => Move::Passes,
    }
}

/// The first token of a message behind a semicolon.
fn in_cascade(sort: Sort) -> Move
    ensures { Does result sort (λ ss k. step (TheMessage ∷ ss) k) }
{
    match sort {
        Sort::Name | Sort::Super | Sort::AnyName => reads(
            Some(Part::Message(MessagePart::BehindInCascade)),
            None,
        ),
        Sort::Binary | Sort::Sign | Sort::Less | Sort::Greater | Sort::Bar => binary(
            MessagePart::BehindInCascade,
        ),
        Sort::Keyword | Sort::PrimitiveKeyword | Sort::AnyKey => keyword(MessagePart::Keyword(
            true,
        )),
        Sort::AnyMessage => any_message(true),
        _ => Move::Refuses,
    }
}

/// The token behind a message of a cascade.
fn behind_in_cascade(sort: Sort) -> Move
    ensures { Does result sort (λ ss k. step (TheCascade ∷ ss) k) }
{
    match sort {
        Sort::Semicolon => reads(Some(Part::Message(MessagePart::InCascade)), None),
        _ => Move::Passes,
    }
}

/// What a part of messages does with a token.
pub fn message_move(part: MessagePart, sort: Sort) -> Move
    ensures { Does result sort (λ ss k. step (message_part part ∷ ss) k) }
{
    match part {
        MessagePart::UnaryOfBinary => unary_of_binary(sort),
        MessagePart::UnaryOfKeyword => unary_of_keyword(sort),
        MessagePart::BinaryOfKeyword => binary_of_keyword(sort),
        MessagePart::Unary(told) => unary_messages(told, sort),
        MessagePart::Binary(told) => binary_messages(told, sort),
        MessagePart::Keyword(told) => keyword_messages(told, sort),
        MessagePart::AnyArgument => any_argument(sort),
        MessagePart::BehindAny(told) => behind_any(told, sort),
        MessagePart::InCascade => in_cascade(sort),
        MessagePart::BehindInCascade => behind_in_cascade(sort),
    }
}
