// Names in strings.
ghost use Rattle.std.specs.Prelude.{◌≡◌, ◌≤◌, ◌==◌, ◌||◌, not, length};
ghost use Rattle.std.specs.List.{list_all, slice_split, prefix_len};
ghost use Rattle.rb_base.specs.Names.{text_eq};
ghost use Rattle.token_model.specs.Bytes as class;
ghost use Rattle.chunk_format.specs.Blank as blank;
ghost use Rattle.scope_model.specs.SpecialNames.{is_pseudo_variable};
ghost use Rattle.text_model.specs.Literals as literal;
ghost use Rattle.file_model.specs.Words as word;

/// Whether both texts are the same.
pub fn same_text(a: &[u8], b: &[u8]) -> bool
    ensures { result ≡ text_eq a.now b.now }
{
    a == b
}

/// Whether the byte is a blank: a tab, a line feed, a form feed, a carriage return or a space.
fn is_blank(byte: u8) -> bool
    ensures { result ≡ blank.is_blank byte }
{
    byte.is_ascii_whitespace()
}

/// Whether the byte is a letter.
fn is_letter(byte: u8) -> bool
    ensures { result ≡ class.is_letter byte }
{
    byte.is_ascii_alphabetic()
}

/// Whether the byte is a letter or a digit.
fn is_word(byte: u8) -> bool
    ensures { result ≡ class.is_word byte }
{
    byte.is_ascii_alphanumeric()
}

/// Whether the bytes are letters and digits alone.
fn are_words(text: &[u8]) -> bool
    ensures { result ≡ list_all class.is_word text.now }
{
    text.iter().all(|byte| is_word(*byte))
}

/// Whether the text is an identifier: a letter, and then letters and digits.
fn is_identifier(text: &[u8]) -> bool
    ensures { result ≡ literal.is_identifier text.now }
{
    match text.split_first() {
        None => false,
        Some((first, rest)) => is_letter(*first) && are_words(rest),
    }
}

/// Whether the text is a pseudo-variable's name.
#[tactic(auto, unfolding(scope_model::specs::SpecialNames::is_pseudo_variable))]
fn is_pseudo_variable(text: &[u8]) -> bool
    ensures { result ≡ is_pseudo_variable text.now }
{
    same_text(text, b"self")
        || same_text(text, b"super")
        || same_text(text, b"nil")
        || same_text(text, b"true")
        || same_text(text, b"false")
        || same_text(text, b"thisContext")
}

/// Whether the text is the name of one of the two global variables of the system.
fn is_global(text: &[u8]) -> bool
    ensures { result ≡ word.is_global text.now }
{
    same_text(text, b"Smalltalk") || same_text(text, b"Transcript")
}

/// Whether a class or a variable may have this name: an identifier that is no pseudo-variable and neither `Smalltalk` nor
/// `Transcript`.
pub fn may_name(text: &[u8]) -> bool
    ensures { result ≡ word.may_name text.now }
{
    is_identifier(text) && !(is_pseudo_variable(text) || is_global(text))
}

/// Whether the part between two blanks is empty or may be a name.
fn may_stand(part: &[u8]) -> bool
    ensures { result ≡ ((length part.now == 0) || word.may_name part.now) }
{
    part.is_empty() || may_name(part)
}

/// How many bytes of a string stand before its first blank: the length of the word with which it begins, or 0. Takes no memory.
pub fn word_len(text: &[u8]) -> usize
    ensures value { result ≡ prefix_len (λ byte. not (blank.is_blank byte)) text.now }
    ensures in_range { result ≤ length text.now }
{
    text.iter().take_while(|byte| !is_blank(**byte)).count()
}

/// Whether each part of a string between two blanks is empty or may be a name.
fn all_may_stand(text: &[u8]) -> bool
    ensures { result ≡ list_all (λ part. (length part == 0) || word.may_name part) (slice_split blank.is_blank text.now) }
{
    let mut rest = text;
    'words: loop {
        let (part, behind) = rest.split_at(word_len(rest));
        if !may_stand(part) {
            return false;
        }
        match behind.split_first() {
            None => return true,
            Some((_, others)) => rest = others,
        }
    }
}

/// Whether each word of a string may be the name of a variable; blanks stand between the words.
pub fn may_name_all(text: &[u8]) -> bool
    ensures { result ≡ word.may_name_all text.now }
{
    all_may_stand(text)
}

/// Whether a string holds nothing but blanks.
pub fn is_blank_string(text: &[u8]) -> bool
    ensures { result ≡ word.is_blank_string text.now }
{
    text.iter().all(|byte| is_blank(*byte))
}
