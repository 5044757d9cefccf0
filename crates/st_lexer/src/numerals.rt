ghost use Rattle.std.specs.Prelude.{◌≡◌, ℕ, ◌+◌, ◌*◌, ◌<◌, ◌≤◌, length, slice_index, slice_range, IfSome, IfNone, IsTrue, ◌↔◌, true};
ghost use Rattle.std.specs.Char.{digit_value};
ghost use Rattle.std.specs.Str.Parse.{digits_value};
ghost use Rattle.token_model.specs.Bytes.{is_digit, is_radix_digit, Passes, IsRun};
ghost use Rattle.token_model.specs.Tokens.{IsDigits, HasRadix, HasFraction, IsInBase, IsMantissa, HasExponent, IsExponent, IsNumeral};

use crate::bytes::{byte_at, is_digit_byte, is_radix_byte, radix_value};
use crate::runs::{digits_end, radix_digits_end};

/// A number above every base.
const NO_BASE: u16 = 37;

/// Whether `r` and a digit of a radix stand here.
fn has_radix(text: &[u8], at: usize) -> bool
    requires { at ≤ length text.now }
    ensures { IsTrue result ↔ HasRadix text.now at }
{
    byte_at(text, at) == b'r' && is_radix_byte(byte_at(text, at + 1))
}

/// Whether a point and a digit stand here.
fn has_fraction(text: &[u8], at: usize) -> bool
    requires { at ≤ length text.now }
    ensures { IsTrue result ↔ HasFraction text.now at }
{
    byte_at(text, at) == b'.' && is_digit_byte(byte_at(text, at + 1))
}

/// Where the digits of an exponent begin, where one stands here.
fn exponent_digits(text: &[u8], at: usize) -> Option<usize>
    requires { at ≤ length text.now }
    ensures some { IfSome result (HasExponent text.now at) }
    ensures none { IfNone result ((k : ℕ) → ¬ HasExponent text.now at k) }
{
    if byte_at(text, at) != b'e' {
        return None;
    }
    let next = byte_at(text, at + 1);
    if is_digit_byte(next) {
        Some(at + 1)
    } else if next == b'-' && is_digit_byte(byte_at(text, at + 2)) {
        Some(at + 2)
    } else {
        None
    }
}

/// The end of an exponent, or the place itself where none stands.
fn exponent_end(text: &[u8], at: usize) -> usize
    requires { at ≤ length text.now }
    ensures { IsExponent text.now at result }
{
    match exponent_digits(text, at) {
        Some(digits) => digits_end(text, digits),
        None => at,
    }
}

/// A base with one more digit behind it, or a number above every base.
fn base_more(base: u16, byte: u8) -> u16
    requires { is_digit byte ≡ true }
    ensures more { base < 37 → result ≡ base * 10 + digit_value byte }
    ensures above { 37 ≤ base → result ≡ base }
{
    if base < NO_BASE {
        base * 10 + u16::from(byte - b'0')
    } else {
        base
    }
}

/// The number that the digits write where it is a base or below one, else a number above every
/// base.
fn base_of(text: &[u8], from: usize, to: usize) -> u16
    requires inside { to ≤ length text.now }
    requires order { from ≤ to }
    requires digits { (k : ℕ) → from ≤ k → k < to → Passes is_digit text.now k }
    ensures is { result < 37 → result ≡ digits_value 10 (slice_range text.now from to) }
    ensures above { 37 ≤ result → 37 ≤ digits_value 10 (slice_range text.now from to) }
{
    let mut base: u16 = 0;
    let mut at = from;
    while at < to {
        base = base_more(base, text[at]);
        at += 1;
    }
    base
}

/// Whether the digits behind `r` are all below the base.
fn are_below(text: &[u8], radix: usize, to: usize, base: u16) -> bool
    requires inside { to ≤ length text.now }
    requires order { radix < to }
    requires digits { (k : ℕ) → radix < k → k < to → Passes is_radix_digit text.now k }
    ensures { IsTrue result ↔ ((k : ℕ) → radix < k → k < to → digit_value (slice_index text.now k) < base) }
{
    let mut at = radix + 1;
    while at < to {
        if u16::from(radix_value(text[at])) >= base {
            return false;
        }
        at += 1;
    }
    true
}

/// Whether the digits up to `r` write a base of 2 to 36, and those behind it are below it.
fn is_in_base(text: &[u8], from: usize, radix: usize, to: usize) -> bool
    requires inside { to ≤ length text.now }
    requires order { radix < to }
    requires base { IsDigits text.now from radix }
    requires digits { IsRun is_radix_digit text.now (radix + 1) to }
    ensures { IsTrue result ↔ IsInBase text.now from radix to }
{
    let base = base_of(text, from, radix);
    2 <= base && base < NO_BASE && are_below(text, radix, to, base)
}

/// The end of the digits behind `r`, where they are all below a base of 2 to 36.
fn radix_end(text: &[u8], from: usize, radix: usize) -> Option<usize>
    requires digits { IsDigits text.now from radix }
    requires radix { HasRadix text.now radix }
    ensures some { IfSome result (IsMantissa text.now from radix) }
    ensures inside { IfSome result (λ j. j ≤ length text.now) }
    ensures none { IfNone result ((j : ℕ) → ¬ IsNumeral text.now from j) }
{
    let end = radix_digits_end(text, radix + 1);
    if is_in_base(text, from, radix, end) {
        Some(end)
    } else {
        None
    }
}

/// The end of the radix part or the fraction behind the digits, or theirs where neither stands.
fn mantissa_end(text: &[u8], from: usize, whole: usize) -> Option<usize>
    requires digits { IsDigits text.now from whole }
    requires inside { whole ≤ length text.now }
    ensures some { IfSome result (IsMantissa text.now from whole) }
    ensures inside { IfSome result (λ j. j ≤ length text.now) }
    ensures none { IfNone result ((j : ℕ) → ¬ IsNumeral text.now from j) }
{
    if has_radix(text, whole) {
        radix_end(text, from, whole)
    } else if has_fraction(text, whole) {
        Some(digits_end(text, whole + 1))
    } else {
        Some(whole)
    }
}

/// The end of the numeral whose first digit is here, unless its radix part is in no base.
pub(crate) fn numeral_end(text: &[u8], from: usize) -> Option<usize>
    requires inside { from < length text.now }
    requires digit { Passes is_digit text.now from }
    ensures some { IfSome result (IsNumeral text.now from) }
    ensures none { IfNone result ((j : ℕ) → ¬ IsNumeral text.now from j) }
{
    let whole = digits_end(text, from + 1);
    match mantissa_end(text, from, whole) {
        Some(mantissa) => Some(exponent_end(text, mantissa)),
        None => None,
    }
}
