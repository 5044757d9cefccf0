// Files that are kept in memory, for tests.
ghost use Rattle.std.specs.Prelude.{◌≡◌, ℕ, ◌+◌, ◌<◌, ◌≤◌, ◌⊎◌, List, [], ◌∷◌, ◌++◌, length, OnOk, OnErr, IsErrOf, IsTrue, IfSome, string_bytes};
ghost use Rattle.std.specs.Option.{option_copied};
ghost use Rattle.rb_base.specs.Outside.{Told, Gives, IsNoFile, OnFile, Rose, RoseBy, last_count};
ghost use Rattle.rb_base.specs.OutputInMemory.{next};
ghost use Rattle.rb_base.specs.FilesInMemory.{FilesInMemory, file_of, told_of, load_fails, plus};

use crate::memory::Memory;
use crate::shelf::{Shelf, ShelfError};
use crate::text::Text;
use std::alloc::Global;
use std::marker::Model;

/// A file and its name.
#[derive(Drop)]
pub struct StoredFile {
    pub name: Text,
    pub bytes: Text,
}

/// Files that are kept in memory. Of each name it tells the bytes, or that there is no file, and it fails at the loads that it is told of.
#[derive(Drop)]
pub struct MemoryShelf {
    alloc: Global,
    files: Vec<StoredFile>,
    refusals: Vec<u64>,
    calls: u64,
    faults: u64,
    taken: u64,
}

impl Model for MemoryShelf {
    ghost use Rattle.rb_base.specs.FilesInMemory.{FilesInMemory};

    ghost Value = { FilesInMemory };

    ghost view = { λ s. record {
      files = s.files.items;
      refusals = s.refusals.items;
      calls = s.calls;
      faults = s.faults;
      taken = s.taken;
    } };
}

impl MemoryShelf {
    /// No file, and no load that fails.
    pub fn new(alloc: Global) -> MemoryShelf
        ensures { result ≡ record { files = []; refusals = []; calls = 0; faults = 0; taken = 0 } }
    {
        MemoryShelf {
            alloc,
            files: Vec::new(alloc),
            refusals: Vec::new(alloc),
            calls: 0,
            faults: 0,
            taken: 0,
        }
    }

    /// Puts a file there, in the place of an earlier one of that name.
    pub fn put_file(&mut self, name: &str, bytes: &[u8]) -> Result<(), Memory>
        ensures ok { OnOk result (self.new ≡ record self.old { files = record { name = name.now; bytes = bytes.now } ∷ self.old.files }) }
        ensures err { OnErr result (self.new ≡ self.old) }
    {
        let file = StoredFile {
            name: Text::from_slice(self.alloc, name.as_bytes())?,
            bytes: Text::from_slice(self.alloc, bytes)?,
        };
        self.files.insert(0, file)?;
        Ok(())
    }

    /// Lets the load of the number `call` fail, from 1.
    pub fn fail_load(&mut self, call: u64) -> Result<(), Memory>
        ensures ok { OnOk result (self.new ≡ record self.old { refusals = self.old.refusals ++ call ∷ [] }) }
        ensures err { OnErr result (self.new ≡ self.old) }
    {
        self.refusals.push(call)?;
        Ok(())
    }
}

/// The newest file of the name.
fn find_file<'a>(files: &'a [StoredFile], name: &str) -> Option<&'a StoredFile>
    ensures { option_copied result ≡ file_of files.now name.now }
{
    files
        .iter()
        .find(|file| file.name.as_slice() == name.as_bytes())
}

/// Whether the load of this number fails.
fn fails(refusals: &[u64], call: u64) -> bool
    ensures { result ≡ load_fails refusals.now call }
{
    refusals.iter().any(|refusal| *refusal == call)
}

impl Shelf for MemoryShelf {
    ghost told = { λ s. told_of s.files };

    ghost faults = { λ s. s.faults };

    ghost taken = { λ s. s.taken };

    fn load(&mut self, name: &str, limit: u32, into: &mut Vec<u8>) -> Result<(), ShelfError>
        ensures loaded { OnOk result (Gives (told_of self.old.files name.now) limit into.old.items into.new.items) }
        ensures err { OnErr result (into.new.items ≡ into.old.items) }

        ensures failed { IsErrOf result ShelfError.Failed →
            IsNoFile (told_of self.old.files name.now) ⊎ Rose self.old.faults self.new.faults }
        ensures no_file { IsNoFile (told_of self.old.files name.now) →
            (IsErrOf result ShelfError.Failed ⊎ IsErrOf result ShelfError.Memory) × (self.new.faults ≡ self.old.faults) }
        ensures too_large { IsErrOf result ShelfError.TooLarge →
            RoseBy (limit + 1) self.old.taken self.new.taken }
        ensures over { IsErrOf result ShelfError.TooLarge → OnFile (told_of self.old.files name.now) (λ file. limit < length file) }

        ensures same { told_of self.new.files ≡ told_of self.old.files }
        ensures more_faults { self.old.faults ≤ self.new.faults }
        ensures more_taken { self.old.taken ≤ self.new.taken }

        // A load of a file that is there fails exactly where it is listed.
        ensures listed { IsErrOf result ShelfError.Failed → IsTrue (load_fails self.old.refusals (next self.old.calls)) ⊎ IsNoFile (told_of self.old.files name.now) }
        ensures fails { IsTrue (load_fails self.old.refusals (next self.old.calls)) → IsErrOf result ShelfError.Failed }
        ensures calls { self.new.calls ≡ next self.old.calls }
        ensures refusals { self.new.refusals ≡ self.old.refusals }
        ensures files { self.new.files ≡ self.old.files }
    {
        self.calls = self.calls.saturating_add(1);
        let Some(file) = find_file(&self.files, name) else {
            return Err(ShelfError::Failed);
        };
        if fails(&self.refusals, self.calls) {
            self.faults = self.faults.saturating_add(1);
            return Err(ShelfError::Failed);
        }
        let bytes = file.bytes.as_slice();
        if bytes.len() > limit as usize {
            self.taken = self.taken.saturating_add(limit as u64 + 1);
            return Err(ShelfError::TooLarge);
        }
        self.taken = self.taken.saturating_add(bytes.len() as u64);
        match into.extend_from_slice(bytes) {
            Ok(()) => Ok(()),
            Err(_) => Err(ShelfError::Memory),
        }
    }
}
