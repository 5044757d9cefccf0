//! The program `browse`: its words, the files and the output of the system, and the status with which it ends.
#![tactic(auto)]

use browse_promises::perform;
use std::io::ErrorKind;
use std::process::ExitCode;
use std::{env, io};
use system_devices::{FileShelf, OutSink};

/// The status where memory is wanting.
const WANT_OF_MEMORY: u8 = 7;

/// The status where the system does not give the words.
const NO_WORDS: u8 = 12;

/// The words behind the program's name, or the status with which the process ends without a call. Where a word is no text, there
/// are no words, which are in no form.
fn words_of<R: std::rt::Env + AllocGlobal>(rt: &R) -> Result<Vec<String>, u8> {
    let mut words = Vec::new(rt.alloc());
    match env::args(rt) {
        Ok(all) => {
            for word in all.skip(1) {
                if words.push(word).is_err() {
                    return Err(WANT_OF_MEMORY);
                }
            }
            Ok(words)
        }
        Err(error) => match error.kind() {
            ErrorKind::OutOfMemory => Err(WANT_OF_MEMORY),
            ErrorKind::InvalidData => Ok(words),
            _ => Err(NO_WORDS),
        },
    }
}

fn main(rt: HostRuntime) -> ExitCode {
    match words_of(&rt) {
        Err(status) => ExitCode::from(status),
        Ok(words) => {
            let mut shelf = FileShelf::new(&rt, rt.alloc());
            let mut out = OutSink::new(io::writer(&rt));
            let status = perform(rt.alloc(), words.as_slice(), &mut shelf, &mut out);
            ExitCode::from(status.number())
        }
    }
}
