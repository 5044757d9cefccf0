// Files of the system.
ghost use Rattle.std.specs.Prelude.{◌≡◌, ◌++◌, OnOk, OnErr, IfErr};

use crate::folder::Folder;
use crate::read_up_to::{ReadFault, read_file};
use rb_base::{Shelf, ShelfError};
use std::alloc::Global;

/// The files of a folder, by their paths. It tells what the folder knows of them, and counts the reads that failed and the bytes that it took.
#[derive(Drop)]
pub struct FileShelf<F: Folder> {
    folder: F,
    alloc: Global,
    faults: u64,
    taken: u64,
}

impl<F: Folder> FileShelf<F> {
    /// The files of this folder, with no read that failed and no byte taken.
    pub fn new(folder: F, alloc: Global) -> FileShelf<F>
        ensures folder { result.folder ≡ folder }
        ensures faults { result.faults ≡ 0 }
        ensures taken { result.taken ≡ 0 }
    {
        FileShelf {
            folder,
            alloc,
            faults: 0,
            taken: 0,
        }
    }
}

/// Appends bytes, which are not copied where none stand before them.
fn append(into: &mut Vec<u8>, bytes: Vec<u8>) -> Result<(), ShelfError>
    ensures ok { OnOk result (into.new.items ≡ into.old.items ++ bytes.items) }
    ensures err { OnErr result (into.new.items ≡ into.old.items) }
    ensures cause { IfErr result (λ cause. cause ≡ ShelfError.Memory) }
{
    if into.is_empty() {
        *into = bytes;
        return Ok(());
    }
    match into.extend_from_slice(bytes.as_slice()) {
        Ok(()) => Ok(()),
        Err(_) => Err(ShelfError::Memory),
    }
}

impl<F: Folder> Shelf for FileShelf<F> {
    ghost use Rattle.system_devices.specs.KnownFiles.{told_of_known};

    ghost told = { λ s name. told_of_known (F.known s.folder name) };

    ghost faults = { λ s. s.faults };

    ghost taken = { λ s. s.taken };

    #[tactic(auto, using(crate::proofs::Known::never_missing))]
    fn load(&mut self, name: &str, limit: u32, into: &mut Vec<u8>) -> Result<(), ShelfError> {
        let mut bytes = Vec::new(self.alloc);
        let outcome = read_file(&self.folder, name, limit as usize + 1, &mut bytes);
        self.taken = self.taken.saturating_add(bytes.len() as u64);
        match outcome {
            Err(ReadFault::Failed) => {
                self.faults = self.faults.saturating_add(1);
                Err(ShelfError::Failed)
            }
            Err(ReadFault::Memory) => Err(ShelfError::Memory),
            Ok(()) => {
                if bytes.len() > limit as usize {
                    return Err(ShelfError::TooLarge);
                }
                append(into, bytes)
            }
        }
    }
}
