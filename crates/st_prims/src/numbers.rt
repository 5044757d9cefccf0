// Primitives by their numbers.
ghost use Rattle.std.specs.Prelude.{◌≡◌, ◌==◌, find, option_map};
ghost use Rattle.run_model.specs.Primitives.{rows};
ghost use Rattle.st_prims.specs.Rows.{row_of};

use integer_prims::Operation;

/// A primitive.
#[derive(Clone, Copy, Debug)]
pub enum Primitive {
    Same,
    Class,
    KindOf,
    Copy,
    Error,
    Reflective,
    New,
    OnIntegers(Operation),
    PrintInteger,
    AsCharacter,
    Size,
    At,
    AtPut,
    Join,
    Part,
    Before,
    AsSymbol,
    PrintString,
    AsString,
    PrintSymbol,
    NewArray,
    AsByte,
    CharacterString,
    PrintCharacter,
    Enter,
    CountParameters,
    Show,
    Print,
}

/// The primitive of a number, if there is one.
pub fn primitive_of(number: u16) -> Option<Primitive>
    ensures { option_map row_of result ≡ option_map (λ row. row.1) (find (λ row. row.0 == number) rows) }
{
    Some(match number {
        1 => Primitive::Same,
        2 => Primitive::Class,
        3 => Primitive::KindOf,
        4 => Primitive::Copy,
        5 => Primitive::Error,
        6 => Primitive::Reflective,
        7 => Primitive::New,
        10 => Primitive::OnIntegers(Operation::Add),
        11 => Primitive::OnIntegers(Operation::Subtract),
        12 => Primitive::OnIntegers(Operation::Multiply),
        13 => Primitive::OnIntegers(Operation::DivideDown),
        14 => Primitive::OnIntegers(Operation::Remainder),
        15 => Primitive::OnIntegers(Operation::DivideExactly),
        16 => Primitive::OnIntegers(Operation::Less),
        18 => Primitive::OnIntegers(Operation::BitsInBoth),
        19 => Primitive::OnIntegers(Operation::BitsInAny),
        20 => Primitive::OnIntegers(Operation::Shift),
        21 => Primitive::PrintInteger,
        22 => Primitive::AsCharacter,
        30 => Primitive::Size,
        31 => Primitive::At,
        32 => Primitive::AtPut,
        33 => Primitive::Join,
        34 => Primitive::Part,
        35 => Primitive::Before,
        36 => Primitive::AsSymbol,
        37 => Primitive::PrintString,
        38 => Primitive::AsString,
        39 => Primitive::PrintSymbol,
        40 => Primitive::NewArray,
        41 => Primitive::AsByte,
        42 => Primitive::CharacterString,
        43 => Primitive::PrintCharacter,
        50 => Primitive::Enter,
        51 => Primitive::Enter,
        52 => Primitive::Enter,
        53 => Primitive::Enter,
        54 => Primitive::CountParameters,
        60 => Primitive::Show,
        61 => Primitive::Print,
        _ => return None,
    })
}
