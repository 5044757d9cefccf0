ghost use Rattle.std.specs.Prelude.{◌≡◌, ◌≢◌, ℕ, ◌<◌, ◌≤◌, length, slice_index, IfOk, IfErr};
ghost use Rattle.std.specs.Option.{option_map_or};
ghost use Rattle.std.specs.Prelude.{option_map};
ghost use Rattle.token_model.specs.Bytes.{is_digit};
ghost use Rattle.tree_model.specs.Tree.{LiteralOf};
ghost use Rattle.grammar_model.specs.Terminal.{Text};
ghost use Rattle.grammar_model.specs.Lexemes.{name_of, keyword_of, binary_of, terminal_of};
ghost use Rattle.st_faults.specs.Sorts.{terminal};
ghost use Rattle.st_faults.specs.Forms.{form_of};
ghost use Rattle.st_faults.specs.Lexing.{literal_of, IsFirst, HasLexFault};

use crate::form::TextForm;
use crate::metas::{sort_in, token_from};
use crate::numeral::{is_digit_byte, numeral_sort};
use crate::sort::Sort;
use token_model::{LexFault, TokenKind};

/// A token that is no comment, where it stands in a text.
#[derive(Clone, Copy, Debug, PartialEq, Eq)]
pub struct Lexeme {
    /// What it is.
    pub sort: Sort,
    /// Where it begins, in bytes from the text's start.
    pub from: usize,
    /// Where it ends, in bytes from the text's start: the place of the byte behind its last one.
    pub to: usize,
}

/// The sort of an identifier.
fn name_sort(text: &[u8]) -> Sort
    ensures { (literal : LiteralOf Text) → name_of text.now ≡ terminal result text.now literal }
{
    if text == b"super".as_slice() {
        Sort::Super
    } else {
        Sort::Name
    }
}

/// The sort of a keyword.
fn keyword_sort(text: &[u8]) -> Sort
    ensures { (literal : LiteralOf Text) → keyword_of text.now ≡ terminal result text.now literal }
{
    if text == b"primitive:".as_slice() {
        Sort::PrimitiveKeyword
    } else {
        Sort::Keyword
    }
}

/// The sort of a binary selector that ends where a numeral begins or not.
fn binary_sort(text: &[u8], before_numeral: bool) -> Sort
    ensures { (literal : LiteralOf Text) → binary_of text.now before_numeral ≡ terminal result text.now literal }
{
    if text == b"-".as_slice() && before_numeral {
        Sort::Sign
    } else if text == b"<".as_slice() {
        Sort::Less
    } else if text == b">".as_slice() {
        Sort::Greater
    } else {
        Sort::Binary
    }
}

/// The sort of a token of a kind with these bytes, or `None` for a comment. The flag says that a numeral begins where it
/// ends.
pub fn sort_of(kind: TokenKind, text: &[u8], before_numeral: bool) -> Option<Sort>
    ensures { terminal_of kind text.now before_numeral ≡ option_map (λ sort. terminal sort text.now (literal_of kind text.now)) result }
{
    let sort = match kind {
        TokenKind::Comment => return None,
        TokenKind::Identifier => name_sort(text),
        TokenKind::Keyword => keyword_sort(text),
        TokenKind::Binary => binary_sort(text, before_numeral),
        TokenKind::Numeral => numeral_sort(text),
        TokenKind::Bar => Sort::Bar,
        TokenKind::Assign => Sort::Assignment,
        TokenKind::Colon => Sort::Colon,
        TokenKind::Semicolon => Sort::Semicolon,
        TokenKind::Period => Sort::Period,
        TokenKind::Caret => Sort::Caret,
        TokenKind::Open => Sort::GroupStart,
        TokenKind::Close => Sort::GroupEnd,
        TokenKind::BlockOpen => Sort::BlockStart,
        TokenKind::BlockClose => Sort::BlockEnd,
        TokenKind::BraceOpen => Sort::BraceStart,
        TokenKind::BraceClose => Sort::BraceEnd,
        TokenKind::ArrayOpen => Sort::ArrayStart,
        TokenKind::BytesOpen => Sort::BytesStart,
        TokenKind::String | TokenKind::Character | TokenKind::Symbol => Sort::Constant,
        TokenKind::End => Sort::TextEnd,
    };
    Some(sort)
}

/// Whether a digit stands at a place, in bytes from the text's start, which may lie behind the text.
pub fn begins_digit(text: &[u8], at: usize) -> bool
    ensures { result ≡ is_digit (slice_index text.now at) }
{
    match text.get(at) {
        Some(byte) => is_digit_byte(*byte),
        None => false,
    }
}

/// The first token of a text of a form, from a place on, that is no comment; at the text's end that of the sort `TextEnd`. The place is at
/// most the text's length, in bytes. The fault is the first lexical one behind the comments from the place on.
/// The comments before the token stand between the place and `from`, and are passed here.
pub fn next_lexeme(form: TextForm, text: &[u8], at: usize) -> Result<Lexeme, LexFault>
    requires { at ≤ length text.now }
    ensures first { IfOk result (IsFirst (form_of form) text.now at) }
    ensures inside { IfOk result (λ lexeme. lexeme.to ≤ length text.now) }
    ensures further { IfOk result (λ lexeme. lexeme.sort ≢ Sort.TextEnd → at < lexeme.to) }
    ensures fault { IfErr result (HasLexFault (form_of form) text.now at) }
{
    let mut place = at;
    'comments: loop {
        let token = token_from(form, text, place)?;
        let before_numeral = begins_digit(text, token.to);
        if let Some(sort) = sort_in(form, token.kind, token.text, before_numeral) {
            return Ok(Lexeme {
                sort,
                from: token.from,
                to: token.to,
            });
        }
        place = token.to;
    }
}
