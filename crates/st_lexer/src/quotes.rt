ghost use Rattle.std.specs.Prelude.{◌≡◌, ℕ, IfSome, IfNone};
ghost use Rattle.token_model.specs.Bytes.{Has};
ghost use Rattle.token_model.specs.Tokens.{IsString, IsComment};

use crate::bytes::byte_at;

/// The end of the string whose first quote is here, where it has one.
pub(crate) fn string_end(text: &[u8], from: usize) -> Option<usize>
    requires { Has text.now from 39 }
    ensures some { IfSome result (IsString text.now from) }
    ensures none { IfNone result ((j : ℕ) → ¬ IsString text.now from j) }
{
    let mut at = from + 1;
    while at < text.len() {
        if text[at] != b'\'' {
            at += 1;
        } else if byte_at(text, at + 1) == b'\'' {
            at += 2;
        } else {
            return Some(at + 1);
        }
    }
    None
}

/// The end of the comment whose first double quote is here, where it has one.
pub(crate) fn comment_end(text: &[u8], from: usize) -> Option<usize>
    requires { Has text.now from 34 }
    ensures some { IfSome result (IsComment text.now from) }
    ensures none { IfNone result ((j : ℕ) → ¬ IsComment text.now from j) }
{
    let mut at = from + 1;
    while at < text.len() {
        if text[at] == b'"' {
            return Some(at + 1);
        }
        at += 1;
    }
    None
}
