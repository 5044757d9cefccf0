ghost use Rattle.std.specs.Prelude.{◌≤◌, length};
ghost use Rattle.token_model.specs.Bytes.{is_blank, is_digit, is_word, is_radix_digit, IsRun};

use crate::bytes::{is_blank_byte, is_digit_byte, is_radix_byte, is_word_byte};

/// The end of the blanks from a place on.
pub(crate) fn blanks_end(text: &[u8], from: usize) -> usize
    requires { from ≤ length text.now }
    ensures run { IsRun is_blank text.now from result }
    ensures inside { result ≤ length text.now }
{
    let mut at = from;
    while at < text.len() && is_blank_byte(text[at]) {
        at += 1;
    }
    at
}

/// The end of the letters and digits from a place on.
pub(crate) fn word_end(text: &[u8], from: usize) -> usize
    requires { from ≤ length text.now }
    ensures run { IsRun is_word text.now from result }
    ensures inside { result ≤ length text.now }
{
    let mut at = from;
    while at < text.len() && is_word_byte(text[at]) {
        at += 1;
    }
    at
}

/// The end of the digits from a place on.
pub(crate) fn digits_end(text: &[u8], from: usize) -> usize
    requires { from ≤ length text.now }
    ensures run { IsRun is_digit text.now from result }
    ensures inside { result ≤ length text.now }
{
    let mut at = from;
    while at < text.len() && is_digit_byte(text[at]) {
        at += 1;
    }
    at
}

/// The end of the digits and upper-case letters from a place on.
pub(crate) fn radix_digits_end(text: &[u8], from: usize) -> usize
    requires { from ≤ length text.now }
    ensures run { IsRun is_radix_digit text.now from result }
    ensures inside { result ≤ length text.now }
{
    let mut at = from;
    while at < text.len() && is_radix_byte(text[at]) {
        at += 1;
    }
    at
}
