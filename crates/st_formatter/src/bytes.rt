// Bytes by their class.
ghost use Rattle.std.specs.Prelude.{◌≡◌};
ghost use Rattle.token_model.specs.Bytes as class;

/// Whether the byte is a letter.
pub(crate) fn is_letter(byte: u8) -> bool
    ensures { result ≡ class.is_letter byte }
{
    byte.is_ascii_alphabetic()
}

/// Whether the byte is a letter or a digit.
pub(crate) fn is_word(byte: u8) -> bool
    ensures { result ≡ class.is_word byte }
{
    byte.is_ascii_alphanumeric()
}

/// Whether the byte is a character of binary selectors.
pub(crate) fn is_binary(byte: u8) -> bool
    ensures { result ≡ class.is_binary byte }
{
    matches!(
        byte,
        b'+' | b'-'
            | b'*'
            | b'/'
            | b'\\'
            | b'~'
            | b'<'
            | b'>'
            | b'='
            | b'@'
            | b'%'
            | b'&'
            | b'?'
            | b','
    )
}

/// Whether the byte may stand second in a binary selector.
pub(crate) fn is_second(byte: u8) -> bool
    ensures { result ≡ class.is_second byte }
{
    is_binary(byte) && byte != b'-'
}
