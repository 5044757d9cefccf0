// Where parentheses stand.
ghost use Rattle.std.specs.Prelude.{◌≡◌};
ghost use Rattle.text_model.specs.Precedences as rule;

use text_model::Precedence;

/// The loosest receiver that a message takes without parentheses.
pub fn receiver_limit(message: Precedence) -> Precedence
    ensures { result ≡ rule.receiver_limit message }
{
    match message {
        Precedence::Unary => Precedence::Unary,
        Precedence::Binary | Precedence::Keyword => Precedence::Binary,
    }
}

/// The loosest argument that a message takes without parentheses.
pub fn argument_limit(message: Precedence) -> Precedence
    ensures { result ≡ rule.argument_limit message }
{
    match message {
        Precedence::Unary | Precedence::Binary => Precedence::Unary,
        Precedence::Keyword => Precedence::Binary,
    }
}

/// Whether an operand of this precedence is looser than the limit.
pub fn is_looser(operand: Precedence, limit: Precedence) -> bool
    ensures { result ≡ rule.is_looser operand limit }
{
    match (operand, limit) {
        (Precedence::Unary, _) | (Precedence::Binary, Precedence::Binary | Precedence::Keyword) => {
            false
        }
        (Precedence::Keyword, Precedence::Keyword) => false,
        (Precedence::Binary, Precedence::Unary) => true,
        (Precedence::Keyword, Precedence::Unary | Precedence::Binary) => true,
    }
}
