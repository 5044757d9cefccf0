// The tokens of a text, with the comments before them.
ghost use Rattle.std.specs.Prelude.{◌≡◌, ◌≢◌, ◌≤◌, ◌<◌, List, [], length, IfOk, IfSome, IfNone};
ghost use Rattle.grammar_model.specs.Input.{Lexeme};
ghost use Rattle.st_faults.specs.declared.sort.Sort.TheVariants.{TextEnd};
ghost use Rattle.st_faults.specs.Forms.{form_of};
ghost use Rattle.st_faults.specs.Lexing.{IsLexedFrom, IsFirst};
ghost use Rattle.st_events.specs.Tokens.{lexeme_of, Begins};

use crate::token::Token;
use rb_base::{Memory, Text};
use st_faults::{TextForm, begins_digit, sort_in, token_from};
use st_tree::Comments;
use std::alloc::Global;

/// The first token of a text of a form, from a place on, that is no comment, behind the comments before it, which are appended. The place is at
/// most the text's length, in bytes. `None` where the text has a lexical fault behind these comments.
#[inline]
pub fn next_token<'t>(
    alloc: Global,
    form: TextForm,
    text: &'t [u8],
    at: usize,
    notes: &mut Comments,
) -> Result<Option<Token<'t>>, Memory>
    requires { at ≤ length text.now }
    ensures first { IfOk result (λ token. IfSome token (λ token. IsFirst (form_of form) text.now at (lexeme_of token))) }
    ensures begins { IfOk result (λ token. IfSome token (λ token. (ts : List Lexeme) → IsLexedFrom (form_of form) text.now at notes.old ts → Begins (form_of form) text.now token notes.new ts)) }
    ensures inside { IfOk result (λ token. IfSome token (λ token. token.to ≤ length text.now)) }
    ensures further { IfOk result (λ token. IfSome token (λ token. token.sort ≢ TextEnd → at < token.to)) }
    ensures fault { IfOk result (λ token. IfNone token ((ts : List Lexeme) → ¬ IsLexedFrom (form_of form) text.now at [] ts)) }
{
    let mut place = at;
    'comments: loop {
        let Ok(token) = token_from(form, text, place) else {
            return Ok(None);
        };
        let before_numeral = begins_digit(text, token.to);
        if let Some(sort) = sort_in(form, token.kind, token.text, before_numeral) {
            return Ok(Some(Token {
                sort,
                kind: token.kind,
                from: token.from,
                to: token.to,
                text: token.text,
            }));
        }
        notes.push(Text::from_slice(alloc, token.text)?)?;
        place = token.to;
    }
}
