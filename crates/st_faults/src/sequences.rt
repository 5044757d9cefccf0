ghost use Rattle.std.specs.Prelude.{◌∷◌};
ghost use Rattle.grammar_model.specs.Machine.{step, FurtherItem, TheBlock, TheParameter, TheParameters, TheNames, BehindStatement, BehindReturn};
ghost use Rattle.st_faults.specs.Moves.{sequence_part, Does};

use crate::moves::{Move, begin_expression, begin_sequence, begin_statement, reads};
use crate::part::{Part, SequencePart};
use crate::sort::Sort;

/// The token behind an expression of a brace array.
fn further_item(sort: Sort) -> Move
    ensures { Does result sort (λ ss k. step (FurtherItem ∷ ss) k) }
{
    match sort {
        Sort::Period => reads(Some(Part::Sequence(SequencePart::Items)), None),
        _ => Move::Passes,
    }
}

/// The first token of a block.
fn block(sort: Sort) -> Move
    ensures { Does result sort (λ ss k. step (TheBlock ∷ ss) k) }
{
    match sort {
        Sort::Colon => reads(Some(Part::Sequence(SequencePart::Parameter)), None),
        _ => begin_sequence(sort, Move::Passes),
    }
}

/// The token behind the colon of a block parameter.
fn parameter(sort: Sort) -> Move
    ensures { Does result sort (λ ss k. step (TheParameter ∷ ss) k) }
{
    match sort {
        Sort::Name | Sort::Super => reads(Some(Part::Sequence(SequencePart::Parameters)), None),
        _ => Move::Refuses,
    }
}

/// The token behind a block parameter.
fn parameters(sort: Sort) -> Move
    ensures { Does result sort (λ ss k. step (TheParameters ∷ ss) k) }
{
    match sort {
        Sort::Colon => reads(Some(Part::Sequence(SequencePart::Parameter)), None),
        Sort::Bar => reads(Some(Part::Sequence(SequencePart::Whole)), None),
        _ => Move::Passes,
    }
}

/// A token among temporaries.
fn names(sort: Sort) -> Move
    ensures { Does result sort (λ ss k. step (TheNames ∷ ss) k) }
{
    match sort {
        Sort::Name | Sort::Super => reads(Some(Part::Sequence(SequencePart::Names)), None),
        Sort::Bar => reads(Some(Part::Sequence(SequencePart::Statements)), None),
        _ => Move::Refuses,
    }
}

/// The token behind a statement.
fn behind_statement(sort: Sort) -> Move
    ensures { Does result sort (λ ss k. step (BehindStatement ∷ ss) k) }
{
    match sort {
        Sort::Period => reads(Some(Part::Sequence(SequencePart::Statements)), None),
        _ => Move::Passes,
    }
}

/// The token behind a return.
fn behind_return(sort: Sort) -> Move
    ensures { Does result sort (λ ss k. step (BehindReturn ∷ ss) k) }
{
    match sort {
        Sort::Period => reads(Some(Part::Sequence(SequencePart::BehindReturn)), None),
        _ => Move::Passes,
    }
}

/// What a part of a sequence does with a token.
pub fn sequence_move(part: SequencePart, sort: Sort) -> Move
    ensures { Does result sort (λ ss k. step (sequence_part part ∷ ss) k) }
{
    match part {
        SequencePart::Items => begin_expression(
            sort,
            Some(Part::Sequence(SequencePart::FurtherItem)),
            Move::Passes,
        ),
        SequencePart::FurtherItem => further_item(sort),
        SequencePart::Block => block(sort),
        SequencePart::Parameter => parameter(sort),
        SequencePart::Parameters => parameters(sort),
        SequencePart::Whole => begin_sequence(sort, Move::Passes),
        SequencePart::Names => names(sort),
        SequencePart::Statements => begin_statement(sort, Move::Passes),
        SequencePart::BehindStatement => behind_statement(sort),
        SequencePart::BehindReturn => behind_return(sort),
    }
}
