// Identifiers, keywords and binary selectors.
ghost use Rattle.std.specs.Prelude.{◌≡◌, ◌==◌, ◌||◌, length};
ghost use Rattle.std.specs.List.{list_all};
ghost use Rattle.token_model.specs.Bytes as class;
ghost use Rattle.text_model.specs.Pieces as piece;
ghost use Rattle.text_model.specs.Literals as literal;

/// Whether the byte is a letter.
fn is_letter(byte: u8) -> bool
    ensures { result ≡ class.is_letter byte }
{
    byte.is_ascii_alphabetic()
}

/// Whether the byte is a letter or a digit.
fn is_word(byte: u8) -> bool
    ensures { result ≡ class.is_word byte }
{
    byte.is_ascii_alphanumeric()
}

/// Whether the byte is a character of binary selectors.
fn is_binary(byte: u8) -> bool
    ensures { result ≡ class.is_binary byte }
{
    matches!(
        byte,
        b'+' | b'-'
            | b'*'
            | b'/'
            | b'\\'
            | b'~'
            | b'<'
            | b'>'
            | b'='
            | b'@'
            | b'%'
            | b'&'
            | b'?'
            | b','
    )
}

/// Whether the byte may stand second in a binary selector.
fn is_second(byte: u8) -> bool
    ensures { result ≡ class.is_second byte }
{
    is_binary(byte) && byte != b'-'
}

/// Whether the bytes are letters and digits.
fn are_words(text: &[u8]) -> bool
    ensures { result ≡ list_all class.is_word text.now }
{
    text.iter().all(|byte| is_word(*byte))
}

/// Whether the text is an identifier: a letter, and then letters and digits.
pub fn is_identifier(text: &[u8]) -> bool
    ensures { result ≡ literal.is_identifier text.now }
{
    match text.split_first() {
        None => false,
        Some((first, rest)) => is_letter(*first) && are_words(rest),
    }
}

/// Whether the bytes are keywords, each an identifier and a colon.
fn are_keywords(text: &[u8]) -> bool
    ensures { result ≡ list_all literal.is_keyword (piece.keywords_of text.now) }
{
    let mut begins = true;
    let mut rest = text;
    while let Some((byte, others)) = rest.split_first() {
        if begins {
            if !is_letter(*byte) {
                return false;
            }
            begins = false;
        } else if *byte == b':' {
            begins = true;
        } else if !is_word(*byte) {
            return false;
        }
        rest = others;
    }
    begins
}

/// Whether the text is one or more keywords.
fn is_keyword_row(text: &[u8]) -> bool
    ensures { result ≡ literal.is_keyword_row text.now }
{
    !text.is_empty() && are_keywords(text)
}

/// Whether the text is a binary selector.
fn is_operator(text: &[u8]) -> bool
    ensures { result ≡ literal.is_operator text.now }
{
    match text {
        [one] => is_binary(*one) || *one == b'|',
        [first, second] => is_binary(*first) && is_second(*second),
        _ => false,
    }
}

/// Whether the text is spelled as a selector is: an identifier, one or more keywords, or a binary selector.
pub fn is_selector(text: &[u8]) -> bool
    ensures { result ≡ literal.is_selector text.now }
{
    is_identifier(text) || is_keyword_row(text) || is_operator(text)
}

/// Whether a selector has a colon, as those of keywords do.
pub fn has_colon(selector: &[u8]) -> bool
    ensures { result ≡ piece.has_colon selector.now }
{
    selector.iter().any(|byte| *byte == b':')
}

/// How many keywords a selector has: the whole of one that has no colon counts as one.
#[tactic(auto, using(crate::proofs::Counts::count_rules))]
pub fn count_keywords(selector: &[u8]) -> usize
    ensures { result ≡ length (piece.keywords_of selector.now) }
{
    let mut count = 0;
    let mut begun = false;
    for byte in selector {
        if *byte == b':' {
            count += 1;
            begun = false;
        } else {
            begun = true;
        }
    }
    if begun { count + 1 } else { count }
}
