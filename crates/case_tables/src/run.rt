// The cases of a table are run, and their answers compared.
ghost use Rattle.std.specs.Prelude.{◌≡◌, ◌↔◌, ℕ, take, IsNone, IfSome, Some};

use crate::case::{Case, Wanted};
use crate::table::Table;
use rb_base::{MemoryShelf, MemorySink};
use std::alloc::Global;
use std::io::Read;
use std::process::ExitCode;
use std::{fmt, io};
use thiserror::Error;

/// The status of a call that wanted memory.
const WANT_OF_MEMORY: u8 = 7;

/// A program whose calls are tried.
pub trait Program {
    /// Does what the words say, with these files and this output, and gives the number of its status.
    fn call(
        &mut self,
        alloc: Global,
        words: &[String],
        shelf: &mut MemoryShelf,
        sink: &mut MemorySink,
    ) -> u8;
}

/// In what an answer differs first from the one that is wanted.
#[derive(Clone, Copy, Debug, Error)]
pub enum Difference {
    /// The call wanted memory.
    #[error("memory is wanting")]
    Memory,
    /// Another status.
    #[error("status {given} in place of {wanted}")]
    Status { given: u8, wanted: u32 },
    /// Other bytes were sent, from this place on.
    #[error("other bytes are sent, the first at {0}")]
    Sent(usize),
    /// More or fewer puts were called.
    #[error("{given} puts in place of {wanted}")]
    Puts { given: u64, wanted: u32 },
}

/// How many cases were run.
#[derive(Clone, Copy)]
struct Tally {
    all: u64,
    agreeing: u64,
}

impl fmt::Display for Tally {
    fn fmt<W: fmt::Write>(&self, f: &mut fmt::Formatter<W>) -> fmt::Result {
        if self.agreeing == self.all {
            write!(f, "all {} cases agree", self.all)
        } else {
            write!(f, "{} of {} cases agree", self.agreeing, self.all)
        }
    }
}

/// Runs the cases of the table that is the standard input, and prints what it finds. Ends with 0 where the table is in form and
/// all its cases agree, and with 1 elsewhere. An error comes where the input or the output fails or memory is wanting.
pub fn run_table<R: Input + Print + AllocGlobal, P: Program>(
    rt: &R,
    program: &mut P,
) -> io::Result<ExitCode> {
    let mut bytes = Vec::new(rt.alloc());
    rt.reader().read_to_end(&mut bytes)?;
    if run_cases(rt, program, &mut Table::new(bytes.as_slice()))? {
        Ok(ExitCode::SUCCESS)
    } else {
        Ok(ExitCode::FAILURE)
    }
}

/// Runs the cases that are to be read, of which there is at least one, and prints what it finds. Tells whether the table is in
/// form and all its cases agree.
fn run_cases<R: Print + AllocGlobal, P: Program>(
    rt: &R,
    program: &mut P,
    table: &mut Table<'_>,
) -> io::Result<bool> {
    let mut tally = Tally {
        all: 0,
        agreeing: 0,
    };
    loop {
        match Case::read(rt.alloc(), table) {
            Ok(mut case) => {
                tally.all = tally.all.saturating_add(1);
                if agrees(rt, program, &mut case)? {
                    tally.agreeing = tally.agreeing.saturating_add(1);
                }
            }
            Err(cause) => {
                rt.println(tally)?;
                rt.println(table.fault(cause))?;
                return Ok(false);
            }
        }
        if table.rest.is_empty() {
            break;
        }
    }
    rt.println(tally)?;
    Ok(tally.agreeing == tally.all)
}

/// Runs a case, and prints in what its answer differs.
fn agrees<R: Print + AllocGlobal, P: Program>(
    rt: &R,
    program: &mut P,
    case: &mut Case<'_>,
) -> io::Result<bool> {
    let words = case.words.as_slice();
    let status = program.call(rt.alloc(), words, &mut case.shelf, &mut case.sink);
    match compare(status, &case.sink, &case.wanted) {
        None => Ok(true),
        Some(difference) => {
            println!(rt; "{}: {difference}", case.name)?;
            Ok(false)
        }
    }
}

/// In what an answer differs from the one that is wanted.
fn compare(given: u8, sink: &MemorySink, wanted: &Wanted) -> Option<Difference>
    ensures agrees { IsNone result ↔ ((given ≡ wanted.now.status) × (sink.now.bytes ≡ wanted.now.sent.items)
        × IfSome wanted.now.puts (λ puts. sink.now.calls ≡ puts)) }
    ensures before { (place : ℕ) → result ≡ Some (Difference.Sent place) → take place sink.now.bytes ≡ take place wanted.now.sent.items }
{
    if u32::from(given) != wanted.status {
        return Some(if given == WANT_OF_MEMORY {
            Difference::Memory
        } else {
            Difference::Status {
                given,
                wanted: wanted.status,
            }
        });
    }
    if let Some(place) = first_other(sink.as_slice(), wanted.sent.as_slice()) {
        return Some(Difference::Sent(place));
    }
    match wanted.puts {
        Some(puts) if u64::from(puts) != sink.calls() => Some(Difference::Puts {
            given: sink.calls(),
            wanted: puts,
        }),
        _ => None,
    }
}

/// The first place at which these bytes are not the same, or the shorter length where one of them goes on.
#[tactic(auto, using(std::proofs::lemmas::List::take_more_same))]
fn first_other(given: &[u8], wanted: &[u8]) -> Option<usize>
    ensures same { IsNone result ↔ (given.now ≡ wanted.now) }
    ensures before { IfSome result (λ place. take place given.now ≡ take place wanted.now) }
{
    if given == wanted {
        return None;
    }
    let mut place = 0;
    while place < given.len() && place < wanted.len() && given[place] == wanted[place] {
        place += 1;
    }
    Some(place)
}
