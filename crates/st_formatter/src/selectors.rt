// Names and selectors.
ghost use Rattle.std.specs.Prelude.{◌≡◌, suc, ◌<◌, ◌≤◌, [], ◌∷◌, ◌++◌, length, take, drop, OnOk};
ghost use Rattle.std.specs.List.{list_all};
ghost use Rattle.rb_base.specs.Names.{name_at};
ghost use Rattle.token_model.specs.Bytes as class;
ghost use Rattle.text_model.specs.Pieces as piece;
ghost use Rattle.text_model.specs.Literals as symbol;

use crate::backward::Backward;
use crate::bytes::{is_binary, is_letter, is_second, is_word};
use precedences::text_of;
use rb_base::{Memory, NameId, Names};

/// Writes a name before the text.
pub(crate) fn write_name(
    name: NameId,
    names: &Names,
    out: &mut Backward<'_, '_>,
) -> Result<(), Memory>
    requires { name < length names.now }
    ensures { OnOk result (out.new ≡ name_at names.now name ++ out.old) }
{
    out.put(text_of(names, name))
}

/// How many keywords a selector has: the whole of one that has no colon counts as one.
#[tactic(auto, using(crate::proofs::Words::count_rules))]
pub(crate) fn count_keywords(selector: &[u8]) -> usize
    ensures { result ≡ length (piece.keywords_of selector.now) }
{
    let mut count = 0;
    let mut begun = false;
    for byte in selector {
        if *byte == b':' {
            count += 1;
            begun = false;
        } else {
            begun = true;
        }
    }
    if begun { count + 1 } else { count }
}

/// Where the last keyword of a selector begins, which has this number: the first begins the selector.
pub(crate) fn keyword_start(selector: &[u8], number: usize) -> usize
    requires { length (piece.keywords_of selector.now) ≡ suc number }
    ensures within { result ≤ length selector.now }
    ensures cut { piece.keywords_of selector.now
        ≡ piece.keywords_of (take result selector.now) ++ drop result selector.now ∷ [] }
{
    if number == 0 {
        return 0;
    }
    last_keyword(selector)
}

/// Where a selector's last keyword begins: behind the colon of the keyword before it.
fn last_keyword(selector: &[u8]) -> usize
    requires { 0 < length selector.now }
    ensures begins { result < length selector.now }
    ensures cut { piece.keywords_of selector.now
        ≡ piece.keywords_of (take result selector.now) ++ drop result selector.now ∷ [] }
{
    let mut at = selector.len() - 1;
    while at > 0 {
        if selector[at - 1] == b':' {
            return at;
        }
        at -= 1;
    }
    at
}

/// Whether the bytes are a letter, then letters and digits.
fn is_identifier(text: &[u8]) -> bool
    ensures { result ≡ symbol.is_identifier text.now }
{
    match text.split_first() {
        None => false,
        Some((first, rest)) => is_letter(*first) && are_words(rest),
    }
}

/// Whether the bytes are letters and digits.
fn are_words(text: &[u8]) -> bool
    ensures { result ≡ list_all class.is_word text.now }
{
    text.iter().all(|byte| is_word(*byte))
}

/// Whether the bytes are one or more keywords.
fn is_keyword_row(text: &[u8]) -> bool
    ensures { result ≡ symbol.is_keyword_row text.now }
{
    !text.is_empty() && are_keywords(text)
}

/// Whether the bytes are keywords.
#[tactic(auto, using(crate::proofs::Scans::scan_rules))]
fn are_keywords(text: &[u8]) -> bool
    ensures { result ≡ list_all symbol.is_keyword (piece.keywords_of text.now) }
{
    let mut begins = true;
    for byte in text {
        if begins {
            if !is_letter(*byte) {
                return false;
            }
            begins = false;
        } else if *byte == b':' {
            begins = true;
        } else if !is_word(*byte) {
            return false;
        }
    }
    begins
}

/// Whether the bytes are a binary selector.
fn is_operator(text: &[u8]) -> bool
    ensures { result ≡ symbol.is_operator text.now }
{
    match text {
        [one] => is_binary(*one) || *one == b'|',
        [first, second] => is_binary(*first) && is_second(*second),
        _ => false,
    }
}

/// Whether a symbol of these bytes is spelled without quotes.
pub(crate) fn is_selector(text: &[u8]) -> bool
    ensures { result ≡ symbol.is_selector text.now }
{
    is_identifier(text) || is_keyword_row(text) || is_operator(text)
}
