// Integers that numerals spell.
ghost use Rattle.std.specs.Prelude.{◌≡◌, ◌<◌, min, length, true};
ghost use Rattle.std.specs.List.{list_any, position_or_len};
ghost use Rattle.std.specs.Char.{digit_value};
ghost use Rattle.std.specs.Str.Parse.{digits_value};
ghost use Rattle.run_model.specs.Numbers.{is_radix_mark, is_fraction_mark, unsigned_value, numeral_integer};

use prim_numbers::fitted;

/// The value of a digit or a letter, and 36 of any other byte.
fn digit(byte: u8) -> u64
    ensures { result ≡ digit_value byte }
{
    if byte < 48 {
        36
    } else if byte < 58 {
        (byte - 48) as u64
    } else if byte < 65 {
        36
    } else if byte < 91 {
        (byte - 55) as u64
    } else if byte < 97 {
        36
    } else if byte < 123 {
        (byte - 87) as u64
    } else {
        36
    }
}

/// The number that digits spell in a base, or the greatest of 64 bits where it is greater.
#[tactic(auto, using(crate::proofs::Capped::capped_step, crate::proofs::Capped::capped_end))]
fn digits(base: u64, text: &[u8]) -> u64
    ensures { result ≡ min (digits_value base text.now) u64.MAX }
{
    let mut value = 0u64;
    for byte in text {
        value = value.saturating_mul(base).saturating_add(digit(*byte));
    }
    value
}

/// Whether the letter `r` stands in a text.
fn has_radix(text: &[u8]) -> bool
    ensures { result ≡ list_any is_radix_mark text.now }
{
    for byte in text {
        if *byte == 114 {
            return true;
        }
    }
    false
}

/// Whether a point or the letter `e` stands in a text.
fn has_fraction(text: &[u8]) -> bool
    ensures { result ≡ list_any is_fraction_mark text.now }
{
    for byte in text {
        if *byte == 46 || *byte == 101 {
            return true;
        }
    }
    false
}

/// The place of the first `r`, and the length of the text where there is none.
#[tactic(auto, using(crate::proofs::Capped::place_inside))]
fn radix_place(text: &[u8]) -> usize
    ensures place { result ≡ position_or_len is_radix_mark text.now }
    ensures inside { list_any is_radix_mark text.now ≡ true → result < length text.now }
{
    let mut at = 0;
    while at < text.len() {
        if text[at] == 114 {
            return at;
        }
        at += 1;
    }
    at
}

/// The number that digits spell, in the base before `r` where there is one, or the greatest of 64 bits where it is greater.
fn unsigned(text: &[u8]) -> u64
    ensures { result ≡ min (unsigned_value text.now) u64.MAX }
{
    if has_radix(text) {
        let at = radix_place(text);
        let base = digits(10, &text[..at]);
        digits(base, &text[at + 1..])
    } else {
        digits(10, text)
    }
}

/// The integer that a numeral is: digits, which may follow a base and `r`, and a sign before them. `None` where it has a
/// fraction or an exponent, or is none of 64 bits.
pub fn numeral(text: &[u8]) -> Option<i64>
    ensures { result ≡ numeral_integer text.now }
{
    if has_fraction(text) {
        return None;
    }
    match text.split_first() {
        None => Some(0),
        Some((first, rest)) => {
            if *first == 45 {
                fitted(-(unsigned(rest) as i128))
            } else {
                fitted(unsigned(text) as i128)
            }
        }
    }
}
