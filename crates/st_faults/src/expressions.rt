ghost use Rattle.std.specs.Prelude.{◌∷◌, true};
ghost use Rattle.grammar_model.specs.Machine.{step, TheArgument, TheKeywordArgument, BehindName, BehindFirstSuper, BehindSuperOfBinary, BehindSuperOfKeyword};
ghost use Rattle.st_faults.specs.Moves.{expression_part, moved, Does, begin_message};

use crate::messages::any_message;
use crate::moves::{Move, begin_expression, begin_operand, reads};
use crate::part::{ExpressionPart, MessagePart, Part};
use crate::sort::Sort;

/// The first token of a binary message's argument.
fn binary_argument(sort: Sort) -> Move
    ensures { Does result sort (λ ss k. step (TheArgument ∷ ss) k) }
{
    let messages = Some(Part::Message(MessagePart::UnaryOfBinary));
    match sort {
        Sort::Name => reads(messages, None),
        Sort::Super => reads(
            Some(Part::Expression(ExpressionPart::BehindSuperOfBinary)),
            None,
        ),
        _ => begin_operand(sort, messages, None, Move::Refuses),
    }
}

/// The first token of a keyword's argument.
fn keyword_argument(sort: Sort) -> Move
    ensures { Does result sort (λ ss k. step (TheKeywordArgument ∷ ss) k) }
{
    let messages = Some(Part::Message(MessagePart::UnaryOfKeyword));
    match sort {
        Sort::Name => reads(messages, None),
        Sort::Super => reads(
            Some(Part::Expression(ExpressionPart::BehindSuperOfKeyword)),
            None,
        ),
        _ => begin_operand(sort, messages, None, Move::Refuses),
    }
}

/// The first token of a message to the first name of an expression. A cascade can go on from it or not.
fn begin_message(sort: Sort, told: bool, otherwise: Move) -> Move
    ensures { Does result sort (λ ss k. begin_message told k ss (moved otherwise ss k)) }
{
    match sort {
        Sort::Name | Sort::Super | Sort::AnyName => reads(
            Some(Part::Message(MessagePart::Unary(told))),
            None,
        ),
        Sort::Binary | Sort::Sign | Sort::Less | Sort::Greater | Sort::Bar => reads(
            Some(Part::Expression(ExpressionPart::BinaryArgument)),
            Some(Part::Message(MessagePart::Binary(told))),
        ),
        Sort::Keyword | Sort::PrimitiveKeyword | Sort::AnyKey => reads(
            Some(Part::Expression(ExpressionPart::KeywordArgument)),
            Some(Part::Message(MessagePart::Keyword(told))),
        ),
        Sort::AnyMessage => any_message(told),
        _ => otherwise,
    }
}

/// The token behind a name that begins an expression.
fn behind_name(sort: Sort) -> Move
    ensures { Does result sort (λ ss k. step (BehindName ∷ ss) k) }
{
    match sort {
        Sort::Assignment => reads(Some(Part::Expression(ExpressionPart::Whole)), None),
        Sort::Semicolon => Move::Refuses,
        _ => begin_message(sort, true, Move::Passes),
    }
}

/// The token behind a `super` that begins an expression.
fn behind_super(sort: Sort) -> Move
    ensures { Does result sort (λ ss k. step (BehindFirstSuper ∷ ss) k) }
{
    match sort {
        Sort::Assignment => reads(Some(Part::Expression(ExpressionPart::Whole)), None),
        _ => begin_message(sort, false, Move::Refuses),
    }
}

/// The token behind a `super` that is a binary message's argument.
fn behind_super_of_binary(sort: Sort) -> Move
    ensures { Does result sort (λ ss k. step (BehindSuperOfBinary ∷ ss) k) }
{
    match sort {
        Sort::Name | Sort::Super | Sort::AnyName => reads(
            Some(Part::Message(MessagePart::UnaryOfBinary)),
            None,
        ),
        _ => Move::Refuses,
    }
}

/// The token behind a `super` that is a keyword's argument.
fn behind_super_of_keyword(sort: Sort) -> Move
    ensures { Does result sort (λ ss k. step (BehindSuperOfKeyword ∷ ss) k) }
{
    match sort {
        Sort::Name | Sort::Super | Sort::AnyName => reads(
            Some(Part::Message(MessagePart::UnaryOfKeyword)),
            None,
        ),
        Sort::Binary | Sort::Sign | Sort::Less | Sort::Greater | Sort::Bar => reads(
            Some(Part::Expression(ExpressionPart::BinaryArgument)),
            Some(Part::Message(MessagePart::BinaryOfKeyword)),
        ),
        _ => Move::Refuses,
    }
}

/// What a part of an expression does with a token.
pub fn expression_move(part: ExpressionPart, sort: Sort) -> Move
    ensures { Does result sort (λ ss k. step (expression_part part ∷ ss) k) }
{
    match part {
        ExpressionPart::Whole => begin_expression(sort, None, Move::Refuses),
        ExpressionPart::BinaryArgument => binary_argument(sort),
        ExpressionPart::KeywordArgument => keyword_argument(sort),
        ExpressionPart::BehindName => behind_name(sort),
        ExpressionPart::BehindSuper => behind_super(sort),
        ExpressionPart::BehindSuperOfBinary => behind_super_of_binary(sort),
        ExpressionPart::BehindSuperOfKeyword => behind_super_of_keyword(sort),
    }
}
