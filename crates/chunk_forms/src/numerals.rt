// Places that numerals state.
ghost use Rattle.std.specs.Prelude.{◌≡◌, ◌≤◌, not, length};
ghost use Rattle.std.specs.List.{prefix_len};
ghost use Rattle.run_model.specs.Numbers.{is_radix_mark};
ghost use Rattle.file_model.specs.Numerals as numerals;

use st_literals::numeral as integer_in;

/// Whether the byte is the letter `r`, which stands between a base and digits.
fn is_radix_mark(byte: u8) -> bool
    ensures { result ≡ is_radix_mark byte }
{
    byte == b'r'
}

/// How many bytes of a numeral stand before its first `r`, and its length where there is none.
fn base_len(numeral: &[u8]) -> usize
    ensures value { result ≡ prefix_len (λ byte. not (is_radix_mark byte)) numeral.now }
    ensures in_range { result ≤ length numeral.now }
{
    numeral
        .iter()
        .take_while(|byte| !is_radix_mark(**byte))
        .count()
}

/// The digits of a numeral without a sign: those behind `r`, where a base stands before it.
fn digits_of(numeral: &[u8]) -> &[u8]
    ensures { result.now ≡ numerals.digits_of numeral.now }
{
    let (_, behind) = numeral.split_at(base_len(numeral));
    match behind.split_first() {
        None => numeral,
        Some((_, digits)) => digits,
    }
}

/// The place that an integer states: 1 or more.
fn positive(integer: i64) -> Option<usize>
    ensures { result ≡ numerals.positive integer }
{
    if 1 <= integer {
        Some(integer as usize)
    } else {
        None
    }
}

/// The place that a numeral states: an integer of at most nine digits that is 1 or more. Takes no memory.
pub fn place_in(numeral: &[u8]) -> Option<usize>
    ensures { result ≡ numerals.place_in numeral.now }
{
    if digits_of(numeral).len() > 9 {
        return None;
    }
    match integer_in(numeral) {
        None => None,
        Some(integer) => positive(integer),
    }
}
