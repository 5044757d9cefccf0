//! Runs the cases of a table, which is the standard input, and tells which of them the program answers otherwise than they say.
//! `case_tables` says what form a table has, and what is printed.
#![tactic(auto)]

use browse::browse;
use case_tables::{Program, run_table};
use rb_base::{MemoryShelf, MemorySink};
use std::alloc::Global;
use std::io;
use std::process::ExitCode;

/// The program.
#[derive(Drop)]
struct Browse;

impl Program for Browse {
    fn call(
        &mut self,
        alloc: Global,
        words: &[String],
        shelf: &mut MemoryShelf,
        sink: &mut MemorySink,
    ) -> u8 {
        browse(alloc, words, shelf, sink).number()
    }
}

fn main(rt: HostRuntime) -> io::Result<ExitCode> {
    run_table(&rt, &mut Browse)
}
