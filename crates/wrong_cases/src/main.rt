//! Runs a table of cases with wrong answers, which is the standard input, so that the lines and the status are seen that tell of
//! them. The program that the cases call copies files.
#![tactic(auto)]

use case_tables::{Program, run_table};
use rb_base::{MemoryShelf, MemorySink, Shelf, Sink};
use std::alloc::Global;
use std::io;
use std::process::ExitCode;

/// Sends the files that the words name, one put for each. The status is how many of them were not loaded or not sent.
#[derive(Drop)]
struct Copies;

impl Program for Copies {
    fn call(
        &mut self,
        alloc: Global,
        words: &[String],
        shelf: &mut MemoryShelf,
        sink: &mut MemorySink,
    ) -> u8 {
        let mut failures = 0u8;
        for word in words {
            let mut bytes = Vec::new(alloc);
            let loaded = shelf.load(word.as_str(), u32::MAX, &mut bytes);
            if loaded.is_err() || sink.put(bytes.as_slice()).is_err() {
                failures = failures.saturating_add(1);
            }
        }
        failures
    }
}

fn main(rt: HostRuntime) -> io::Result<ExitCode> {
    run_table(&rt, &mut Copies)
}
