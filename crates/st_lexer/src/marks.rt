ghost use Rattle.std.specs.Prelude.{◌≡◌, ◌≢◌, ℕ, ◌+◌, ◌^◌, ◌<◌, ◌≤◌, ◌⊎◌, List, length, slice_index, IfSome, IfNone, IfOk, IfErr};
ghost use Rattle.token_model.specs.Bytes.{is_letter, is_digit, is_binary, Has, Passes, Fails};
ghost use Rattle.token_model.specs.Tokens.{IsToken};
ghost use Rattle.token_model.specs.Faults.{FaultsAs, IsFault};
ghost use Rattle.st_lexer.specs.Marks.{IsAlone, BeginsNoMark};
ghost use Rattle.token_model.specs.declared.kind.Dialect.TheVariants.{Second};

use crate::bytes::{byte_at, is_binary_byte, is_digit_byte, is_letter_byte};
use crate::numerals::numeral_end;
use crate::quotes::{comment_end, string_end};
use crate::words::{binary_end, symbol_name_end, word_token};
use token_model::{LexFault, TokenKind};

/// The kind of token that a byte is alone, whatever follows it.
fn single_kind(byte: u8) -> Option<TokenKind>
    ensures some { IfSome result (IsAlone byte) }
    ensures none { IfNone result (BeginsNoMark byte) }
{
    match byte {
        b'|' => Some(TokenKind::Bar),
        b'_' => Some(TokenKind::Assign),
        b';' => Some(TokenKind::Semicolon),
        b'.' => Some(TokenKind::Period),
        b'^' => Some(TokenKind::Caret),
        b'(' => Some(TokenKind::Open),
        b')' => Some(TokenKind::Close),
        b'[' => Some(TokenKind::BlockOpen),
        b']' => Some(TokenKind::BlockClose),
        b'{' => Some(TokenKind::BraceOpen),
        b'}' => Some(TokenKind::BraceClose),
        _ => None,
    }
}

/// The token that begins with a colon: its kind and its end.
fn colon_token(text: &[u8], from: usize) -> (TokenKind, usize)
    requires inside { from < length text.now }
    requires colon { Has text.now from 58 }
    ensures { IsToken Second result.0 text.now from result.1 }
{
    if byte_at(text, from + 1) == b'=' {
        (TokenKind::Assign, from + 2)
    } else {
        (TokenKind::Colon, from + 1)
    }
}

/// The token that begins with `#`: its kind and its end.
fn hash_token(text: &[u8], from: usize) -> Result<(TokenKind, usize), LexFault>
    requires inside { from < length text.now }
    requires hash { Has text.now from 35 }
    ensures token { IfOk result (λ found. IsToken Second found.0 text.now from found.1) }
    ensures fault { IfErr result (IsFault Second text.now from) }
{
    let second = byte_at(text, from + 1);
    if second == b'(' {
        return Ok((TokenKind::ArrayOpen, from + 2));
    }
    if second == b'[' {
        return Ok((TokenKind::BytesOpen, from + 2));
    }
    match symbol_name_end(text, from + 1) {
        Some(end) => Ok((TokenKind::Symbol, end)),
        None => Err(hash_fault(second, from)),
    }
}

/// The fault at a `#` that begins no token, by the byte behind it.
fn hash_fault(second: u8, from: usize) -> LexFault
    requires { from < 2 ^ 63 }
    ensures { (text : List ℕ) → Has text from 35 → Has text (from + 1) second →
        FaultsAs text from result }
{
    if second == b'\'' {
        LexFault::OpenString { at: from + 1 }
    } else {
        LexFault::BadByte { at: from }
    }
}

/// The string, comment or character that begins here: its kind and its end.
fn quoted_token(text: &[u8], from: usize, byte: u8) -> Result<(TokenKind, usize), LexFault>
    requires inside { from < length text.now }
    requires byte { Has text.now from byte }
    requires which { (byte ≡ 39) ⊎ ((byte ≡ 34) ⊎ (byte ≡ 36)) }
    ensures token { IfOk result (λ found. IsToken Second found.0 text.now from found.1) }
    ensures fault { IfErr result (IsFault Second text.now from) }
{
    if byte == b'\'' {
        match string_end(text, from) {
            Some(end) => Ok((TokenKind::String, end)),
            None => Err(LexFault::OpenString { at: from }),
        }
    } else if byte == b'"' {
        match comment_end(text, from) {
            Some(end) => Ok((TokenKind::Comment, end)),
            None => Err(LexFault::OpenComment { at: from }),
        }
    } else if from + 1 < text.len() {
        Ok((TokenKind::Character, from + 2))
    } else {
        Err(LexFault::BadByte { at: from })
    }
}

/// The token that begins with no letter, digit or binary character: its kind and its end.
fn mark_token(text: &[u8], from: usize) -> Result<(TokenKind, usize), LexFault>
    requires inside { from < length text.now }
    requires letter { Fails is_letter text.now from }
    requires digit { Fails is_digit text.now from }
    requires binary { Fails is_binary text.now from }
    ensures token { IfOk result (λ found. IsToken Second found.0 text.now from found.1) }
    ensures fault { IfErr result (IsFault Second text.now from) }
{
    let byte = text[from];
    if byte == b':' {
        return Ok(colon_token(text, from));
    }
    if byte == b'#' {
        return hash_token(text, from);
    }
    if byte == b'\'' || byte == b'"' || byte == b'$' {
        return quoted_token(text, from, byte);
    }
    match single_kind(byte) {
        Some(kind) => Ok((kind, from + 1)),
        None => Err(LexFault::BadByte { at: from }),
    }
}

/// The numeral that begins here: its kind and its end.
fn numeral_token(text: &[u8], from: usize) -> Result<(TokenKind, usize), LexFault>
    requires inside { from < length text.now }
    requires digit { Passes is_digit text.now from }
    ensures token { IfOk result (λ found. IsToken Second found.0 text.now from found.1) }
    ensures fault { IfErr result (IsFault Second text.now from) }
{
    match numeral_end(text, from) {
        Some(end) => Ok((TokenKind::Numeral, end)),
        None => Err(LexFault::BadNumeral { at: from }),
    }
}

/// The token that begins here: its kind and its end.
pub(crate) fn token_at(text: &[u8], from: usize) -> Result<(TokenKind, usize), LexFault>
    requires { from ≤ length text.now }
    ensures token { IfOk result (λ found. IsToken Second found.0 text.now from found.1) }
    ensures fault { IfErr result (IsFault Second text.now from) }
{
    if from == text.len() {
        return Ok((TokenKind::End, from));
    }
    let byte = text[from];
    if is_letter_byte(byte) {
        Ok(word_token(text, from))
    } else if is_digit_byte(byte) {
        numeral_token(text, from)
    } else if is_binary_byte(byte) {
        Ok((TokenKind::Binary, binary_end(text, from)))
    } else {
        mark_token(text, from)
    }
}
