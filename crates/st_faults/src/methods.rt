ghost use Rattle.std.specs.Prelude.{◌≡◌, ◌∷◌};
ghost use Rattle.grammar_model.specs.Machine.{step, body_part, ThePattern, BinaryName, KeywordName, PatternRest, ThePrimitive, PrimitiveNumber, PrimitiveEnd};
ghost use Rattle.st_faults.specs.Moves.{part_of, method_part, closing_part, Does};

use crate::moves::{Move, begin_body, reads};
use crate::part::{ClosingPart, MethodPart, Part, SequencePart};
use crate::sort::Sort;

/// The body of a method, of the kernel or not.
fn body(kernel: bool) -> Part
    ensures { part_of result ≡ body_part kernel }
{
    if kernel {
        Part::Method(MethodPart::KernelBody)
    } else {
        Part::Sequence(SequencePart::Whole)
    }
}

/// The first token of a method.
fn pattern(kernel: bool, sort: Sort) -> Move
    ensures { Does result sort (λ ss k. step (ThePattern kernel ∷ ss) k) }
{
    match sort {
        Sort::Name | Sort::Super => reads(Some(body(kernel)), None),
        Sort::Binary | Sort::Sign | Sort::Less | Sort::Greater | Sort::Bar => reads(
            Some(Part::Method(MethodPart::BinaryName(kernel))),
            None,
        ),
        Sort::Keyword | Sort::PrimitiveKeyword | Sort::AnyKey => reads(
            Some(Part::Method(MethodPart::KeywordName(kernel))),
            None,
        ),
        _ => Move::Refuses,
    }
}

/// The token behind a binary selector in a pattern.
fn binary_name(kernel: bool, sort: Sort) -> Move
    ensures { Does result sort (λ ss k. step (BinaryName kernel ∷ ss) k) }
{
    match sort {
        Sort::Name | Sort::Super => reads(Some(body(kernel)), None),
        _ => Move::Refuses,
    }
}

/// The token behind a keyword in a pattern.
fn keyword_name(kernel: bool, sort: Sort) -> Move
    ensures { Does result sort (λ ss k. step (KeywordName kernel ∷ ss) k) }
{
    match sort {
        Sort::Name | Sort::Super => reads(
            Some(Part::Method(MethodPart::PatternRest(kernel))),
            None,
        ),
        _ => Move::Refuses,
    }
}

/// The token behind an argument of a keyword in a pattern.
fn pattern_rest(kernel: bool, sort: Sort) -> Move
    ensures { Does result sort (λ ss k. step (PatternRest kernel ∷ ss) k) }
{
    match sort {
        Sort::Keyword | Sort::PrimitiveKeyword | Sort::AnyKey => reads(
            Some(Part::Method(MethodPart::KeywordName(kernel))),
            None,
        ),
        _ => begin_body(kernel, sort, Move::Passes),
    }
}

/// The token behind the bracket that opens a primitive.
fn primitive(sort: Sort) -> Move
    ensures { Does result sort (λ ss k. step (ThePrimitive ∷ ss) k) }
{
    match sort {
        Sort::PrimitiveKeyword => reads(Some(Part::Method(MethodPart::PrimitiveNumber)), None),
        _ => Move::Refuses,
    }
}

/// The number of a primitive.
fn primitive_number(sort: Sort) -> Move
    ensures { Does result sort (λ ss k. step (PrimitiveNumber ∷ ss) k) }
{
    match sort {
        Sort::SmallNumeral => reads(Some(Part::Method(MethodPart::PrimitiveEnd)), None),
        _ => Move::Refuses,
    }
}

/// The bracket that closes a primitive.
fn primitive_end(sort: Sort) -> Move
    ensures { Does result sort (λ ss k. step (PrimitiveEnd ∷ ss) k) }
{
    match sort {
        Sort::Greater => reads(None, None),
        _ => Move::Refuses,
    }
}

/// What a part of a method does with a token.
pub fn method_move(part: MethodPart, sort: Sort) -> Move
    ensures { Does result sort (λ ss k. step (method_part part ∷ ss) k) }
{
    match part {
        MethodPart::Pattern(kernel) => pattern(kernel, sort),
        MethodPart::BinaryName(kernel) => binary_name(kernel, sort),
        MethodPart::KeywordName(kernel) => keyword_name(kernel, sort),
        MethodPart::PatternRest(kernel) => pattern_rest(kernel, sort),
        MethodPart::KernelBody => begin_body(true, sort, Move::Passes),
        MethodPart::Primitive => primitive(sort),
        MethodPart::PrimitiveNumber => primitive_number(sort),
        MethodPart::PrimitiveEnd => primitive_end(sort),
    }
}

/// What a closing mark that must come does with a token.
pub fn closing_move(part: ClosingPart, sort: Sort) -> Move
    ensures { Does result sort (λ ss k. step (closing_part part ∷ ss) k) }
{
    match (part, sort) {
        (ClosingPart::Group, Sort::GroupEnd)
        | (ClosingPart::Block, Sort::BlockEnd)
        | (ClosingPart::Brace, Sort::BraceEnd)
        | (ClosingPart::Text, Sort::TextEnd) => reads(None, None),
        _ => Move::Refuses,
    }
}
