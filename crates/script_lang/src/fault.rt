// Why a script is refused.
ghost use Rattle.std.specs.Prelude.{◌≡◌};
ghost use Rattle.script_lang.specs.declared.fault.ScriptFault.TheVariants as fault;

use rb_base::Memory;
use std::alloc::AllocError;
use thiserror::Error;

/// Why a script is refused: its first line that is wrong, by its number. All lines are counted, from 1, also those that
/// say nothing. Where a line is wrong in several ways, the first of these is told.
#[derive(Clone, Copy, Debug, PartialEq, Eq, Error)]
pub enum ScriptFault {
    /// The first word of the line is no command's.
    #[error("line {line}: unknown command")]
    UnknownCommand { line: usize },
    /// The command does not take so many words, one of them is not spelled as it is to be at its place, the text of
    /// `addMethod` is no method of a user, or that of `addParameter` no literal; or `applyRule` has no certificate, no arrow, or
    /// a text that is no pattern or no replacement for it.
    #[error("line {line}: bad argument")]
    BadArgument { line: usize },
    /// There are 10,000 commands before this line.
    #[error("line {line}: too many commands")]
    TooMany { line: usize },
    /// Want of memory.
    #[error("out of memory")]
    Memory,
}

impl From<Memory> for ScriptFault {
    ghost from_gives = { λ _ e. e ≡ fault.Memory };

    fn from(_error: Memory) -> ScriptFault {
        ScriptFault::Memory
    }
}

impl From<AllocError> for ScriptFault {
    ghost from_gives = { λ _ e. e ≡ fault.Memory };

    fn from(_error: AllocError) -> ScriptFault {
        ScriptFault::Memory
    }
}
