ghost use Rattle.std.specs.Prelude.{◌≡◌, ◌∷◌, Some, None};
ghost use Rattle.grammar_model.specs.Machine.{step, TheElements};
ghost use Rattle.st_faults.specs.Moves.{literal_part, Does};

use crate::moves::{Move, Parts, reads};
use crate::part::{ClosingPart, LiteralPart, Part};
use crate::sort::Sort;

/// An inner array of these elements behind its opening, and then more elements.
fn inner(inside: LiteralPart, end: ClosingPart) -> Move
    ensures { result ≡ Move.Reads (record { first = Some (Part.Literal inside); second = Some (Part.Awaits end); third = Some (Part.Literal LiteralPart.Elements); fourth = None }) }
{
    Move::Reads(Parts {
        first: Some(Part::Literal(inside)),
        second: Some(Part::Awaits(end)),
        third: Some(Part::Literal(LiteralPart::Elements)),
        fourth: None,
    })
}

/// A token in an array.
fn elements(sort: Sort) -> Move
    ensures { Does result sort (λ ss k. step (TheElements ∷ ss) k) }
{
    let more = Part::Literal(LiteralPart::Elements);
    match sort {
        Sort::Name
        | Sort::Super
        | Sort::Keyword
        | Sort::PrimitiveKeyword
        | Sort::Binary
        | Sort::Less
        | Sort::Greater
        | Sort::Bar
        | Sort::SmallNumeral
        | Sort::LargeNumeral
        | Sort::OtherNumeral
        | Sort::Constant => reads(Some(more), None),
        Sort::Sign => reads(Some(Part::Literal(LiteralPart::Numeral)), Some(more)),
        Sort::GroupStart | Sort::ArrayStart => inner(LiteralPart::Elements, ClosingPart::Group),
        Sort::BlockStart | Sort::BytesStart => inner(LiteralPart::Bytes, ClosingPart::Block),
        _ => Move::Passes,
    }
}

/// What a part of a literal does with a token.
pub fn literal_move(part: LiteralPart, sort: Sort) -> Move
    ensures { Does result sort (λ ss k. step (literal_part part ∷ ss) k) }
{
    match part {
        LiteralPart::Numeral => match sort {
            Sort::SmallNumeral | Sort::LargeNumeral | Sort::OtherNumeral => reads(None, None),
            _ => Move::Refuses,
        },
        LiteralPart::Elements => elements(sort),
        LiteralPart::Bytes => match sort {
            Sort::SmallNumeral | Sort::LargeNumeral => reads(
                Some(Part::Literal(LiteralPart::Bytes)),
                None,
            ),
            _ => Move::Passes,
        },
    }
}
