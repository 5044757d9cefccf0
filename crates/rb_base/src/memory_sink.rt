// An output that is kept in memory, for tests.
ghost use Rattle.std.specs.Prelude.{◌≡◌, ℕ, ◌+◌, ◌≤◌, ◌<◌, ◌⊎◌, List, [], ◌∷◌, ◌++◌, length, take, min, OnOk, OnErr, IsErrOf, IsSome, IfSome, Some};
ghost use Rattle.rb_base.specs.Outside.{last_count, Rose, Sends, SendsPart};
ghost use Rattle.rb_base.specs.OutputInMemory.{OutputInMemory, fails_at, next};

use crate::memory::Memory;
use crate::sink::{Sink, SinkError};
use std::alloc::Global;
use std::marker::Model;

/// An output that is kept in memory. It tells what was sent, and fails at the puts that it is told of.
#[derive(Drop)]
pub struct MemorySink {
    bytes: Vec<u8>,
    refusals: Vec<(u64, usize)>,
    calls: u64,
    faults: u64,
}

impl Model for MemorySink {
    ghost use Rattle.std.specs.Prelude.{◌-◌, vec_len};
    ghost use Rattle.std.specs.Vec.{vec_capacity};
    ghost use Rattle.rb_base.specs.OutputInMemory.{OutputInMemory};

    ghost Value = { OutputInMemory };

    ghost view = { λ s. record {
      bytes = s.bytes.items;
      refusals = s.refusals.items;
      calls = s.calls;
      faults = s.faults;
      room = vec_capacity s.bytes - vec_len s.bytes;
    } };
}

impl MemorySink {
    /// An output to which nothing was sent, and of which no put fails.
    pub fn new(alloc: Global) -> MemorySink
        ensures bytes { result.bytes ≡ [] }
        ensures refusals { result.refusals ≡ [] }
        ensures calls { result.calls ≡ 0 }
        ensures faults { result.faults ≡ 0 }
    {
        MemorySink {
            bytes: Vec::new(alloc),
            refusals: Vec::new(alloc),
            calls: 0,
            faults: 0,
        }
    }

    /// The bytes that were sent.
    pub fn as_slice(&self) -> &[u8]
        ensures { result.now ≡ self.now.bytes }
    {
        self.bytes.as_slice()
    }

    /// How many puts were called, up to the greatest `u64`.
    pub fn calls(&self) -> u64
        ensures { result ≡ self.now.calls }
    {
        self.calls
    }

    /// Makes room for so many bytes more. Puts within that room take no memory.
    pub fn reserve(&mut self, bytes: usize) -> Result<(), Memory>
        ensures room { OnOk result (bytes ≤ self.new.room) }
        ensures rest { self.new ≡ record self.old { room = self.new.room } }
        ensures err { OnErr result (self.new ≡ self.old) }
    {
        self.bytes.reserve(bytes)?;
        Ok(())
    }

    /// Lets the put of the number `call`, from 1, fail after at most `taken` bytes of its piece.
    pub fn fail_put(&mut self, call: u64, taken: usize) -> Result<(), Memory>
        ensures ok { OnOk result (self.new ≡ record self.old { refusals = self.old.refusals ++ (call, taken) ∷ [] }) }
        ensures err { OnErr result (self.new ≡ self.old) }
    {
        self.refusals.push((call, taken))?;
        Ok(())
    }
}

/// How many bytes the put of this number takes before it fails, where it fails.
fn refused_at(refusals: &[(u64, usize)], call: u64) -> Option<usize>
    ensures { result ≡ fails_at refusals.now call }
{
    refusals.iter().find(|r| r.0 == call).map(|r| r.1)
}

impl Sink for MemorySink {
    ghost sent = { λ s. Some s.bytes };

    ghost faults = { λ s. s.faults };

    fn put(&mut self, piece: &[u8]) -> Result<(), SinkError>
        ensures ok { OnOk result (Sends piece.now (Some self.old.bytes) (Some self.new.bytes)) }
        ensures err { OnErr result (SendsPart piece.now (Some self.old.bytes) (Some self.new.bytes)) }
        ensures cause { IsErrOf result SinkError.Failed → Rose self.old.faults self.new.faults }
        ensures memory { IsErrOf result SinkError.Memory → Some self.new.bytes ≡ Some self.old.bytes }
        ensures more_faults { self.old.faults ≤ self.new.faults }

        // A put fails exactly where it is listed, and takes so many bytes.
        ensures listed { IsErrOf result SinkError.Failed → IsSome (fails_at self.old.refusals (next self.old.calls)) }
        ensures fails { IfSome (fails_at self.old.refusals (next self.old.calls)) (λ taken. IsErrOf result SinkError.Failed ⊎ IsErrOf result SinkError.Memory) }
        ensures taken { IsErrOf result SinkError.Failed → IfSome (fails_at self.old.refusals (next self.old.calls)) (λ taken. self.new.bytes ≡ self.old.bytes ++ take (min taken (length piece.now)) piece.now) }
        ensures within { length piece.now ≤ self.old.room → ¬ IsErrOf result SinkError.Memory }
        ensures calls { self.new.calls ≡ next self.old.calls }
        ensures refusals { self.new.refusals ≡ self.old.refusals }
    {
        self.calls = self.calls.saturating_add(1);
        if let Some(taken) = refused_at(&self.refusals, self.calls) {
            let part = &piece[..taken.min(piece.len())];
            self.bytes.extend_from_slice(part)?;
            self.faults = self.faults.saturating_add(1);
            return Err(SinkError::Failed);
        }
        self.bytes.extend_from_slice(piece)?;
        Ok(())
    }
}
