use thiserror::Error;

/// Why no token begins at a place of a text, with an offset in bytes from the text's start.
#[derive(Clone, Copy, Debug, PartialEq, Eq, Error)]
pub enum LexFault {
    /// A byte that begins no token, a `$` at the text's end, or a `#` that begins no token.
    #[error("byte {at} begins no token")]
    BadByte { at: usize },
    /// The string that opens here has no end.
    #[error("the string that opens at byte {at} has no end")]
    OpenString { at: usize },
    /// The comment that opens here has no end.
    #[error("the comment that opens at byte {at} has no end")]
    OpenComment { at: usize },
    /// The base of the numeral that begins here is not 2 to 36, or a digit is not below it.
    #[error("the numeral at byte {at} is in no base, or has a digit that is not below its base")]
    BadNumeral { at: usize },
}
