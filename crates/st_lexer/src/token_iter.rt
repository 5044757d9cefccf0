ghost use Rattle.std.specs.Prelude.{◌≡◌, ℕ, List, None, Result};
ghost use Rattle.std.specs.Iterator.{at_most, YieldsThen};
ghost use Rattle.token_model.specs.TokenLists.{HasTokens};
ghost use Rattle.token_model.specs.declared.kind.Dialect.TheVariants.{Second};
ghost use Rattle.token_model.specs.declared.fault.LexFault.{LexFault};
ghost use Rattle.st_lexer.specs.declared.token.Token.{Token};
ghost use Rattle.st_lexer.specs.Unread.{Unread};
ghost use Rattle.st_lexer.specs.Given.{is_end, Gives, start, left, pieces, first_fault};

use crate::next::next_token;
use crate::token::Token;
use std::marker::Model;
use token_model::{LexFault, TokenKind};

/// The tokens of a text in order, comments among them: up to that of the kind `End`, or up to and
/// with the first fault. It takes no memory.
#[derive(Drop)]
pub struct TokenIter<'t> {
    text: &'t [u8],
    at: usize,
    over: bool,
}

impl<'t> Model for TokenIter<'t> {
    ghost use Rattle.std.specs.Prelude.{◌≤◌, length};
    ghost use Rattle.st_lexer.specs.Unread.{Unread};

    ghost Value = { Unread };

    ghost view = { λ iter. record { text = iter.text.now; at = iter.at; over = iter.over } };

    ghost invariant = { λ iter. iter.at ≤ length iter.text.now };
}

/// Whether the kind is that of the text's end.
fn is_end_kind(kind: TokenKind) -> bool
    ensures { result ≡ is_end kind }
{
    match kind {
        TokenKind::End => true,
        _ => false,
    }
}

/// The tokens of the text, from its start on.
pub fn tokens<'t>(text: &'t [u8]) -> TokenIter<'t>
    ensures { result ≡ start text.now }
{
    TokenIter {
        text,
        at: 0,
        over: false,
    }
}

impl<'t> Iterator for TokenIter<'t> {
    type Item = Result<Token<'t>, LexFault>;

    ghost next_gives = { Gives };

    ghost remaining = { λ iter. at_most (left iter) };

    fn next(&mut self) -> Option<Result<Token<'t>, LexFault>> {
        if self.over {
            return None;
        }
        let text = self.text;
        match next_token(text, self.at) {
            Ok(token) => {
                self.at = token.to;
                self.over = is_end_kind(token.kind);
                Some(Ok(token))
            }
            Err(fault) => {
                self.over = true;
                Some(Err(fault))
            }
        }
    }
}

/// What the calls of `next` give, from a text's start until they give `None`, are the tokens of the
/// text and its first fault, if it has one.
pub fn gives_the_tokens()
    ensures { (text : List ℕ) (items : List (Result Token LexFault)) (last : Unread) →
        YieldsThen Gives (start text) items None last →
        HasTokens Second text 0 (pieces items) (first_fault items) }
{}
