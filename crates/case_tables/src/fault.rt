// What is wrong in a table.
ghost use Rattle.std.specs.Prelude.{◌≡◌};
ghost use Rattle.case_tables.specs.declared.fault.TableFault.TheVariants as fault;

use rb_base::Memory;
use std::alloc::{AllocError, AllocFailed};
use thiserror::Error;

/// What is wrong at a place of a table.
#[derive(Clone, Copy, Debug, Error)]
pub enum TableFault {
    /// No case begins where one is to begin.
    #[error("a case is wanted")]
    Case,
    /// The name of a case is empty.
    #[error("a name is wanted")]
    Name,
    /// No number of the right form stands there.
    #[error("a number is wanted")]
    Number,
    /// No blank stands between two numbers.
    #[error("a blank is wanted")]
    Blank,
    /// A line goes on behind its last word, or bytes have no line feed behind them.
    #[error("a line feed is wanted")]
    LineFeed,
    /// A word or a name is not UTF-8.
    #[error("UTF-8 is wanted")]
    Utf8,
    /// The table ends within bytes, after so many of them.
    #[error("bytes end after {0}")]
    BytesEnd(usize),
    /// A case has no status where it is to stand.
    #[error("a status is wanted")]
    Status,
    /// A case does not say what is sent where it is to say so.
    #[error("what is sent is wanted")]
    Sent,
    /// Want of memory.
    #[error("memory is wanting")]
    Memory,
}

impl From<Memory> for TableFault {
    ghost from_gives = { λ _ e. e ≡ fault.Memory };

    fn from(_error: Memory) -> TableFault {
        TableFault::Memory
    }
}

impl From<AllocError> for TableFault {
    ghost from_gives = { λ _ e. e ≡ fault.Memory };

    fn from(_error: AllocError) -> TableFault {
        TableFault::Memory
    }
}

impl<T: Drop> From<AllocFailed<T>> for TableFault {
    ghost from_gives = { λ _ e. e ≡ fault.Memory };

    fn from(_error: AllocFailed<T>) -> TableFault {
        TableFault::Memory
    }
}

/// Why a table is refused.
#[derive(Clone, Copy, Debug, Error)]
#[error("line {line}: {cause}")]
pub struct Fault {
    /// The line that is wrong, from 1.
    pub line: usize,
    /// What is wrong there.
    pub cause: TableFault,
}
