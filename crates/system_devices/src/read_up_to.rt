// Readers, up to a number of bytes.
ghost use Rattle.std.specs.Prelude.{◌≡◌, ◌≤◌, take, length, [], OnOk, IfSome};

use crate::folder::Folder;
use std::io::Read;

/// How many bytes one read asks for at most.
const BUFFER: usize = 16384;

/// Why a file was not read to its end.
#[derive(Clone, Copy)]
pub(crate) enum ReadFault {
    Failed,
    Memory,
}

/// Appends what the reader has left, at most `most` bytes of it. Each read gives at least one byte, or the end.
fn read_up_to<F: Read>(file: &mut F, most: usize, into: &mut Vec<u8>) -> Result<(), ReadFault>
    requires { into.old.items ≡ [] }
    ensures most { length into.new.items ≤ most }
    ensures all { OnOk result (IfSome (F.remaining file.old) (λ bytes. into.new.items ≡ take most bytes)) }
{
    let mut buffer = [0u8; BUFFER];
    while into.len() < most {
        let room = BUFFER.min(most - into.len());
        match file.read(&mut buffer[..room]) {
            Ok(0) => return Ok(()),
            Ok(count) => {
                if into.extend_from_slice(&buffer[..count]).is_err() {
                    return Err(ReadFault::Memory);
                }
            }
            Err(_) => return Err(ReadFault::Failed),
        }
    }
    Ok(())
}

/// Appends the file of the path, at most `most` bytes of it.
pub(crate) fn read_file<F: Folder>(
    folder: &F,
    path: &str,
    most: usize,
    into: &mut Vec<u8>,
) -> Result<(), ReadFault>
    requires { into.old.items ≡ [] }
    ensures most { length into.new.items ≤ most }
    ensures all { OnOk result (IfSome (F.known folder.now path.now) (λ bytes. into.new.items ≡ take most bytes)) }
{
    match folder.open(path) {
        Ok(mut file) => read_up_to(&mut file, most, into),
        Err(_) => Err(ReadFault::Failed),
    }
}
