// Metavariables of patterns, and the tokens of texts of any form.
ghost use Rattle.std.specs.Prelude.{◌≡◌, ◌≢◌, ◌≤◌, ℕ, length, slice_index, option_map, IfOk, IfErr, IfSome, IfNone};
ghost use Rattle.token_model.specs.Bytes.{Has};
ghost use Rattle.token_model.specs.Tokens.{IsToken};
ghost use Rattle.token_model.specs.TokenLists.{IsNextFault};
ghost use Rattle.token_model.specs.declared.kind.Dialect.TheVariants.{Second};
ghost use Rattle.token_model.specs.declared.kind.TokenKind.{TokenKind};
ghost use Rattle.tree_model.specs.Tree.{LiteralOf};
ghost use Rattle.st_lexer.specs.Pieces.{piece, IsSliceOf};
ghost use Rattle.grammar_model.specs.Terminal.{Text};
ghost use Rattle.grammar_model.specs.PatternTokens.{mark_at, behind_mark, MayMark, IsMetaWord, IsMeta, IsPatternNext, IsPatternNextFault, IsNextOf, IsNextFaultOf, meta_name_of, meta_keyword_of, terminal_in};
ghost use Rattle.st_faults.specs.Sorts.{terminal};
ghost use Rattle.st_faults.specs.Forms.{form_of};
ghost use Rattle.st_faults.specs.Lexing.{literal_of};

use crate::form::TextForm;
use crate::lexeme::sort_of;
use crate::sort::Sort;
use st_lexer::{Token, next_token};
use token_model::{LexFault, TokenKind};

/// The byte with which metavariables begin.
const BACKQUOTE: u8 = b'`';

/// The byte at a place, in bytes from the text's start, or 0 past its end.
fn byte_at(text: &[u8], at: usize) -> u8
    ensures { result ≡ slice_index text.now at }
{
    match text.get(at) {
        Some(byte) => *byte,
        None => 0,
    }
}

/// The place behind the backquotes, one or two, of a metavariable that begins here.
fn mark_place(text: &[u8], from: usize) -> usize
    requires { from ≤ length text.now }
    ensures { result ≡ mark_at text.now from }
{
    if byte_at(text, from + 1) == BACKQUOTE {
        from + 2
    } else {
        from + 1
    }
}

/// The place of a metavariable's word, behind the mark that stands here or none.
fn word_place(text: &[u8], mark: usize) -> usize
    requires { mark ≤ length text.now }
    ensures place { result ≡ behind_mark text.now mark }
    ensures inside { result ≤ length text.now }
{
    let first = byte_at(text, mark);
    if first == b'.' {
        if byte_at(text, mark + 1) == b'@' {
            mark + 2
        } else {
            mark + 1
        }
    } else if first == b'#' || first == b'@' {
        mark + 1
    } else {
        mark
    }
}

/// The kind and the end of the metavariable's word that this token gives behind the mark at a place, or `None` where it
/// gives none. Behind `#` and `.` a keyword gives its name, without the colon.
fn marked_word(text: &[u8], mark: usize, word: &Token<'_>) -> Option<(TokenKind, usize)>
    requires { IsToken Second word.now.kind text.now word.now.from word.now.to }
    ensures may { IfSome result (λ found. MayMark (slice_index text.now mark) found.0) }
    ensures some { IfSome result (λ found. IsMetaWord (slice_index text.now mark) found.0 text.now word.now.from found.1) }
    ensures inside { IfSome result (λ found. found.1 ≤ word.now.to) }
    ensures no_identifier { IfNone result (word.now.kind ≢ TokenKind.Identifier) }
    ensures no_keyword { IfNone result (word.now.kind ≢ TokenKind.Keyword) }
{
    let first = byte_at(text, mark);
    match word.kind {
        TokenKind::Identifier => Some((TokenKind::Identifier, word.to)),
        TokenKind::Keyword if first == b'#' || first == b'.' => {
            Some((TokenKind::Identifier, word.to - 1))
        }
        TokenKind::Keyword => Some((TokenKind::Keyword, word.to)),
        _ => None,
    }
}

/// The kind of the metavariable's word that begins at a backquote, and its end, or `None` where none begins there.
fn meta_at(text: &[u8], from: usize) -> Option<(TokenKind, usize)>
    requires { Has text.now from 96 }
    ensures some { IfSome result (λ found. IsMeta found.0 text.now from found.1) }
    ensures order { IfSome result (λ found. from ≤ found.1) }
    ensures inside { IfSome result (λ found. found.1 ≤ length text.now) }
    ensures none { IfNone result ((kind : TokenKind) (to : ℕ) → ¬ IsMeta kind text.now from to) }
{
    let mark = mark_place(text, from);
    let place = word_place(text, mark);
    let Ok(word) = next_token(text, place) else {
        return None;
    };
    if word.from == place {
        marked_word(text, mark, &word)
    } else {
        None
    }
}

/// The metavariable behind the blanks from a place on, where no other token begins, with this fault.
fn meta_token(text: &[u8], at: usize, fault: LexFault) -> Result<Token<'_>, LexFault>
    requires { IsNextFault Second text.now at fault }
    ensures token { IfOk result (λ token. IsPatternNext Second text.now at (piece token)) }
    ensures text { IfOk result (IsSliceOf text.now) }
    ensures inside { IfOk result (λ token. token.to ≤ length text.now) }
    ensures fault { IfErr result (IsPatternNextFault Second text.now at) }
{
    let LexFault::BadByte { at: from } = fault else {
        return Err(fault);
    };
    if byte_at(text, from) != BACKQUOTE {
        return Err(fault);
    }
    match meta_at(text, from) {
        Some((kind, to)) => Ok(Token {
            kind,
            from,
            to,
            text: &text[from..to],
        }),
        None => Err(fault),
    }
}

/// The next token of a text of a form behind the blanks from a place on, as `next_token` of st_lexer has it. In a
/// pattern a metavariable is a token too, of the kind of its word, and a backquote that begins none is a `BadByte`.
#[inline]
pub fn token_from(form: TextForm, text: &[u8], at: usize) -> Result<Token<'_>, LexFault>
    requires { at ≤ length text.now }
    ensures token { IfOk result (λ token. IsNextOf (form_of form) Second text.now at (piece token)) }
    ensures text { IfOk result (IsSliceOf text.now) }
    ensures inside { IfOk result (λ token. token.to ≤ length text.now) }
    ensures fault { IfErr result (IsNextFaultOf (form_of form) Second text.now at) }
{
    let token = next_token(text, at);
    let TextForm::Pattern = form else {
        return token;
    };
    match token {
        Err(fault) => meta_token(text, at, fault),
        token => token,
    }
}

/// The sort of a metavariable of a name, an operand or statements.
fn meta_name_sort(text: &[u8]) -> Sort
    ensures { (literal : LiteralOf Text) → meta_name_of text.now ≡ terminal result text.now literal }
{
    let first = byte_at(text, mark_place(text, 0));
    if first == b'.' {
        Sort::AnyStatement
    } else if first == b'#' {
        Sort::AnyLiteral
    } else if first == b'@' {
        Sort::AnyExpression
    } else {
        Sort::AnyName
    }
}

/// The sort of a metavariable of a keyword or of a whole message.
fn meta_keyword_sort(text: &[u8]) -> Sort
    ensures { (literal : LiteralOf Text) → meta_keyword_of text.now ≡ terminal result text.now literal }
{
    if byte_at(text, mark_place(text, 0)) == b'@' {
        Sort::AnyMessage
    } else {
        Sort::AnyKey
    }
}

/// The sort of a token of a text of a form, of a kind and with these bytes, or `None` for a comment. The flag says that a
/// numeral begins where it ends.
#[inline]
pub fn sort_in(form: TextForm, kind: TokenKind, text: &[u8], before_numeral: bool) -> Option<Sort>
    ensures { terminal_in (form_of form) kind text.now before_numeral ≡ option_map (λ sort. terminal sort text.now (literal_of kind text.now)) result }
{
    let TextForm::Pattern = form else {
        return sort_of(kind, text, before_numeral);
    };
    if byte_at(text, 0) != BACKQUOTE {
        return sort_of(kind, text, before_numeral);
    }
    match kind {
        TokenKind::Identifier => Some(meta_name_sort(text)),
        TokenKind::Keyword => Some(meta_keyword_sort(text)),
        _ => sort_of(kind, text, before_numeral),
    }
}
