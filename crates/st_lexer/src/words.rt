ghost use Rattle.std.specs.Prelude.{◌≡◌, ℕ, ◌+◌, ◌<◌, ◌≤◌, length, slice_index, IfSome, IfNone, IsTrue, ◌↔◌, true};
ghost use Rattle.token_model.specs.Bytes.{is_letter, is_binary, Passes};
ghost use Rattle.token_model.specs.Tokens.{HasColon, IsKeyword, IsBinary, IsKeywordRow, IsSymbolName, IsToken};
ghost use Rattle.token_model.specs.declared.kind.Dialect.TheVariants.{Second};

use crate::bytes::{byte_at, is_binary_byte, is_letter_byte};
use crate::quotes::string_end;
use crate::runs::word_end;
use token_model::TokenKind;

/// Whether a colon stands here that no `=` follows.
pub(crate) fn has_colon(text: &[u8], at: usize) -> bool
    requires { at ≤ length text.now }
    ensures { IsTrue result ↔ HasColon text.now at }
{
    byte_at(text, at) == b':' && byte_at(text, at + 1) != b'='
}

/// An identifier or a keyword: its kind and its end.
pub(crate) fn word_token(text: &[u8], from: usize) -> (TokenKind, usize)
    requires inside { from < length text.now }
    requires letter { Passes is_letter text.now from }
    ensures { IsToken Second result.0 text.now from result.1 }
{
    let end = word_end(text, from + 1);
    if has_colon(text, end) {
        (TokenKind::Keyword, end + 1)
    } else {
        (TokenKind::Identifier, end)
    }
}

/// The end of a keyword, where one begins here.
fn keyword_end(text: &[u8], from: usize) -> Option<usize>
    requires { from ≤ length text.now }
    ensures some { IfSome result (IsKeyword text.now from) }
    ensures none { IfNone result ((j : ℕ) → ¬ IsKeyword text.now from j) }
{
    if !is_letter_byte(byte_at(text, from)) {
        return None;
    }
    let end = word_end(text, from + 1);
    if has_colon(text, end) {
        Some(end + 1)
    } else {
        None
    }
}

/// The end of the row of keywords whose first ends at a place.
fn keyword_row_end(text: &[u8], from: usize, first: usize) -> usize
    requires { IsKeyword text.now from first }
    ensures { IsKeywordRow text.now from result }
{
    let mut at = first;
    while let Some(end) = keyword_end(text, at) {
        at = end;
    }
    at
}

/// The end of a binary selector.
pub(crate) fn binary_end(text: &[u8], from: usize) -> usize
    requires inside { from < length text.now }
    requires binary { Passes is_binary text.now from }
    ensures { IsBinary text.now from result }
{
    let second = byte_at(text, from + 1);
    if is_binary_byte(second) && second != b'-' {
        from + 2
    } else {
        from + 1
    }
}

/// The end of what a symbol names, where that begins here.
pub(crate) fn symbol_name_end(text: &[u8], from: usize) -> Option<usize>
    requires { from ≤ length text.now }
    ensures some { IfSome result (IsSymbolName text.now from) }
    ensures none { IfNone result ((j : ℕ) → ¬ IsSymbolName text.now from j) }
{
    let first = byte_at(text, from);
    if is_letter_byte(first) {
        let end = word_end(text, from + 1);
        if has_colon(text, end) {
            Some(keyword_row_end(text, from, end + 1))
        } else {
            Some(end)
        }
    } else if is_binary_byte(first) {
        Some(binary_end(text, from))
    } else if first == b'|' {
        Some(from + 1)
    } else if first == b'\'' {
        string_end(text, from)
    } else {
        None
    }
}
