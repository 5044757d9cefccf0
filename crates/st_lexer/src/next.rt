ghost use Rattle.std.specs.Prelude.{◌≤◌, length, IfOk, IfErr};
ghost use Rattle.token_model.specs.Tokens.{IsToken};
ghost use Rattle.token_model.specs.Faults.{IsFault};
ghost use Rattle.token_model.specs.TokenLists.{IsNext, IsNextFault};
ghost use Rattle.token_model.specs.declared.kind.Dialect.TheVariants.{Second};
ghost use Rattle.st_lexer.specs.Pieces.{piece, IsSliceOf};

use crate::marks::token_at;
use crate::runs::blanks_end;
use crate::token::Token;
use token_model::{LexFault, TokenKind};

/// The token that begins here, and that it lies inside the text.
fn token_inside(text: &[u8], from: usize) -> Result<(TokenKind, usize), LexFault>
    requires { from ≤ length text.now }
    ensures token { IfOk result (λ found. IsToken Second found.0 text.now from found.1) }
    ensures order { IfOk result (λ found. from ≤ found.1) }
    ensures inside { IfOk result (λ found. found.1 ≤ length text.now) }
    ensures fault { IfErr result (IsFault Second text.now from) }
{
    token_at(text, from)
}

/// The next token behind the blanks from a place on, which is at most the text's length; at the
/// text's end that of the kind `End`. Each fault names a place in bytes from the text's start:
/// `BadByte` a byte that begins no token, a `$` that no byte follows or a `#` that begins no token;
/// `OpenString` and `OpenComment` the first quote of a string or a comment that has no end;
/// `BadNumeral` the first byte of a numeral whose base is not 2 to 36 or has a digit that is not
/// below it.
pub fn next_token(text: &[u8], at: usize) -> Result<Token<'_>, LexFault>
    requires { at ≤ length text.now }
    ensures token { IfOk result (λ token. IsNext Second text.now at (piece token)) }
    ensures text { IfOk result (IsSliceOf text.now) }
    ensures inside { IfOk result (λ token. token.to ≤ length text.now) }
    ensures fault { IfErr result (IsNextFault Second text.now at) }
{
    let from = blanks_end(text, at);
    let (kind, to) = token_inside(text, from)?;
    Ok(Token {
        kind,
        from,
        to,
        text: &text[from..to],
    })
}
