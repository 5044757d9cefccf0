// How the words of a command line are spelled.
ghost use Rattle.std.specs.Prelude.{◌≡◌, ◌-◌, nat_le, IsTrue, Option, Some, None, if◌then◌else◌};
ghost use Rattle.std.specs.List.{list_all};
ghost use Rattle.token_model.specs.Bytes as class;
ghost use Rattle.text_model.specs.Literals as literal;
ghost use Rattle.command_words.specs.Spelling.{value_after, is_numeral, number_of};

/// Whether the byte is a decimal digit.
fn is_digit(byte: u8) -> bool
    ensures { result ≡ class.is_digit byte }
{
    byte.is_ascii_digit()
}

/// Whether the byte is a letter.
fn is_letter(byte: u8) -> bool
    ensures { result ≡ class.is_letter byte }
{
    byte.is_ascii_alphabetic()
}

/// Whether the byte is a letter or a digit.
fn is_word(byte: u8) -> bool
    ensures { result ≡ class.is_word byte }
{
    byte.is_ascii_alphanumeric()
}

/// Whether the bytes are digits alone.
fn are_digits(text: &[u8]) -> bool
    ensures { result ≡ list_all class.is_digit text.now }
{
    text.iter().all(|byte| is_digit(*byte))
}

/// Whether the bytes are letters and digits alone.
fn are_words(text: &[u8]) -> bool
    ensures { result ≡ list_all class.is_word text.now }
{
    text.iter().all(|byte| is_word(*byte))
}

/// Whether the bytes are an identifier: a letter, and then letters and digits.
pub(crate) fn is_identifier(text: &[u8]) -> bool
    ensures { result ≡ literal.is_identifier text.now }
{
    match text.split_first() {
        None => false,
        Some((first, rest)) => is_letter(*first) && are_words(rest),
    }
}

/// The digit that a byte writes.
fn digit_of(byte: u8) -> u64
    ensures { result ≡ byte - 48 }
{
    u64::from(byte.saturating_sub(b'0'))
}

/// The number that digits write, where it is at most this one. No number that is kept is higher.
fn value_within(digits: &[u8], most: u32) -> Option<u32>
    ensures { result ≡ (if nat_le (value_after 0 digits.now) most then Some (value_after 0 digits.now) else None) }
{
    let mut value = 0;
    let mut rest = digits;
    while let Some((byte, others)) = rest.split_first() {
        value = value * 10 + digit_of(*byte);
        if value > u64::from(most) {
            return None;
        }
        rest = others;
    }
    Some(value as u32)
}

/// Whether the word is digits without a leading zero.
fn is_numeral(word: &[u8]) -> bool
    ensures { result ≡ is_numeral word.now }
{
    match word.split_first() {
        None => false,
        Some((first, rest)) => b'1' <= *first && *first <= b'9' && are_digits(rest),
    }
}

/// The number that the word writes, where it is a decimal number from 1 to `most` without a leading zero.
pub fn number_of(word: &[u8], most: u32) -> Option<u32>
    ensures { result ≡ number_of most word.now }
{
    if is_numeral(word) {
        value_within(word, most)
    } else {
        None
    }
}
