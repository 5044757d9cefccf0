//! Tables of cases: calls of a program, each with its words, its files and the answer that is wanted. The cases of a table are run,
//! and it is told which of them are answered otherwise than they say.
//!
//! Each case is run as soon as it is read, and a line is printed where its answer differs. A line tells how many cases agree. A
//! table that is out of form is not read on: a last line tells the line that is wrong, and the cases before it were run.
//!
//! A table has lines of words parted by single blanks, and bytes. The bytes follow the line that gives their length, and a line
//! feed behind them is not part of them. Numbers are decimal, without a sign or a leading zero, and at most 4294967295.
//!
//! - `case NAME` begins a case. The name is the rest of the line.
//! - `word LENGTH` and the bytes: a word of the command line, in UTF-8.
//! - `file NAME` and pieces: a file.
//! - `load NUMBER`: the load of this number fails. The first one is 1.
//! - `put NUMBER TAKEN`: the put of this number fails after at most so many bytes of its piece.
//! - `status NUMBER`: the status that is wanted.
//! - `sent` and pieces: what is to be sent.
//! - `puts NUMBER`: how many puts are to be called. It may be left out.
//!
//! They stand in this order. There are any number of words, files, loads and puts that fail. The pieces of a file and of what is
//! sent are any number of these:
//!
//! - `text LENGTH` and the bytes.
//! - `repeat TIMES LENGTH` and the bytes, which count so many times.
//! - `count FROM BEFORE LENGTH` and the bytes, which count once for each number from the first to before the second, whose digits
//!   stand in the place of each `@`.
#![tactic(auto)]

mod case;
mod fault;
mod run;
mod table;

pub use case::{Case, Wanted};
pub use fault::{Fault, TableFault};
pub use run::{Difference, Program, run_table};
pub use table::Table;
