ghost use Rattle.std.specs.Prelude.{◌≡◌};
ghost use Rattle.st_faults.specs.declared.fault.ParseFault.TheVariants as fault;
ghost use Rattle.st_faults.specs.Words.{word};

use grammar_model::Wanted;
use rb_base::Memory;
use thiserror::Error;
use token_model::LexFault;

/// Why a source text is refused. Each `at` is an offset in bytes from the text's start. A kind comes only where the
/// text has none of an earlier kind, in this order: `Lexical`; `TooDeep` of brackets; `Expected` and `PrimitiveInUser`,
/// whichever stands first; `DuplicateName`; `AssignsFixed`; `TooDeep` of statements. `Memory` comes at any time.
#[derive(Clone, Copy, Debug, PartialEq, Eq, Error)]
pub enum ParseFault {
    /// A token is ill formed.
    #[error(transparent)]
    Lexical(LexFault),
    /// The token at `at` can continue no text; `what` could have stood there.
    #[error("{} expected at byte {at}", word_of(*.what))]
    Expected { what: Wanted, at: usize },
    /// A pseudo-variable, an argument or a parameter is assigned, at its name.
    #[error("a name that cannot be assigned is assigned at byte {at}")]
    AssignsFixed { at: usize },
    /// Behind 400 open brackets one more opens here, or a statement that is higher than 200 begins here.
    #[error("too deep at byte {at}")]
    TooDeep { at: usize },
    /// A primitive in a text of a user, at its opening bracket.
    #[error("a primitive in a text of a user at byte {at}")]
    PrimitiveInUser { at: usize },
    /// A name that its list of arguments, parameters and temporaries declared before.
    #[error("a name is declared twice, at byte {at} again")]
    DuplicateName { at: usize },
    /// Want of memory.
    #[error("out of memory")]
    Memory,
}

/// The word for what could have stood where a text is wrong.
pub fn word_of(wanted: Wanted) -> &'static str
    ensures { result.now ≡ word wanted }
{
    match wanted {
        Wanted::Operand => "operand",
        Wanted::Identifier => "identifier",
        Wanted::Element => "element",
        Wanted::End => "end",
    }
}

impl From<Memory> for ParseFault {
    ghost from_gives = { λ _ e. e ≡ fault.Memory };

    fn from(_error: Memory) -> ParseFault {
        ParseFault::Memory
    }
}

impl From<LexFault> for ParseFault {
    ghost from_gives = { λ f e. e ≡ fault.Lexical f };

    fn from(fault: LexFault) -> ParseFault {
        ParseFault::Lexical(fault)
    }
}
