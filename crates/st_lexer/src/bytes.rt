ghost use Rattle.std.specs.Prelude.{◌≡◌, slice_index, true};
ghost use Rattle.std.specs.Char.{digit_value};
ghost use Rattle.token_model.specs.Bytes.{is_blank, is_digit, is_upper, is_letter, is_word, is_binary, is_radix_digit};

/// The byte at a place, 0 past the end.
pub(crate) fn byte_at(text: &[u8], at: usize) -> u8
    ensures { result ≡ slice_index text.now at }
{
    if at < text.len() { text[at] } else { 0 }
}

/// Tab, line feed, form feed, carriage return or space.
pub(crate) fn is_blank_byte(byte: u8) -> bool
    ensures { result ≡ is_blank byte }
{
    byte == 9 || byte == 10 || byte == 12 || byte == 13 || byte == 32
}

/// `0` to `9`.
pub(crate) fn is_digit_byte(byte: u8) -> bool
    ensures { result ≡ is_digit byte }
{
    b'0' <= byte && byte <= b'9'
}

/// `A` to `Z`.
pub(crate) fn is_upper_byte(byte: u8) -> bool
    ensures { result ≡ is_upper byte }
{
    b'A' <= byte && byte <= b'Z'
}

/// `A` to `Z` and `a` to `z`.
pub(crate) fn is_letter_byte(byte: u8) -> bool
    ensures { result ≡ is_letter byte }
{
    is_upper_byte(byte) || (b'a' <= byte && byte <= b'z')
}

/// A letter or a digit.
pub(crate) fn is_word_byte(byte: u8) -> bool
    ensures { result ≡ is_word byte }
{
    is_letter_byte(byte) || is_digit_byte(byte)
}

/// A digit or an upper-case letter.
pub(crate) fn is_radix_byte(byte: u8) -> bool
    ensures { result ≡ is_radix_digit byte }
{
    is_digit_byte(byte) || is_upper_byte(byte)
}

/// One of `+ - * / \ ~ < > = @ % & ? ,`.
pub(crate) fn is_binary_byte(byte: u8) -> bool
    ensures { result ≡ is_binary byte }
{
    byte == b'+'
        || byte == b'-'
        || byte == b'*'
        || byte == b'/'
        || byte == b'\\'
        || byte == b'~'
        || byte == b'<'
        || byte == b'>'
        || byte == b'='
        || byte == b'@'
        || byte == b'%'
        || byte == b'&'
        || byte == b'?'
        || byte == b','
}

/// The value of a digit of a numeral with a radix, 0 to 35.
pub(crate) fn radix_value(byte: u8) -> u8
    requires { is_radix_digit byte ≡ true }
    ensures { result ≡ digit_value byte }
{
    if is_digit_byte(byte) {
        byte - b'0'
    } else {
        byte - b'A' + 10
    }
}
