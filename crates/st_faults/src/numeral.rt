ghost use Rattle.std.specs.Prelude.{◌≡◌, ◌+◌, ◌*◌, ◌≤◌, nat_le, true};
ghost use Rattle.std.specs.List.{list_all};
ghost use Rattle.std.specs.Char.{digit_value};
ghost use Rattle.std.specs.Str.Parse.{digits_value};
ghost use Rattle.token_model.specs.Bytes.{is_digit};
ghost use Rattle.tree_model.specs.Tree.{LiteralOf};
ghost use Rattle.grammar_model.specs.Terminal.{Text, Numeral};
ghost use Rattle.grammar_model.specs.Lexemes.{numeral_of};
ghost use Rattle.st_faults.specs.Sorts.{terminal};

use crate::sort::Sort;

/// The highest number of a primitive.
const HIGHEST_NUMBER: u32 = 65_535;

/// Whether the byte is a digit.
pub fn is_digit_byte(byte: u8) -> bool
    ensures { result ≡ is_digit byte }
{
    b'0' <= byte && byte <= b'9'
}

/// Whether all bytes are digits.
fn are_digits(text: &[u8]) -> bool
    ensures { result ≡ list_all is_digit text.now }
{
    text.iter().all(|byte| is_digit_byte(*byte))
}

/// A number with one more digit behind it.
fn value_more(value: u32, byte: u8) -> u32
    requires digit { is_digit byte ≡ true }
    requires low { value ≤ 65535 }
    ensures { result ≡ value * 10 + digit_value byte }
{
    value * 10 + u32::from(byte - b'0')
}

/// Whether the number that the digits write is one that a primitive may have.
fn is_small(text: &[u8]) -> bool
    requires { list_all is_digit text.now ≡ true }
    ensures { result ≡ nat_le (digits_value 10 text.now) 65535 }
{
    let mut value = 0u32;
    for byte in text {
        value = value_more(value, *byte);
        if value > HIGHEST_NUMBER {
            return false;
        }
    }
    true
}

/// The sort of a numeral.
pub fn numeral_sort(text: &[u8]) -> Sort
    ensures { (literal : LiteralOf Text) → Numeral (numeral_of text.now) text.now ≡ terminal result text.now literal }
{
    if !are_digits(text) {
        Sort::OtherNumeral
    } else if is_small(text) {
        Sort::SmallNumeral
    } else {
        Sort::LargeNumeral
    }
}
