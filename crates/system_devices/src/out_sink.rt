// The output of the system.
ghost use Rattle.std.specs.Prelude.{◌≡◌, ◌≤◌, OnOk, OnErr, IsErrOf};
ghost use Rattle.std.specs.Io.KnownBytes.{Appends};
ghost use Rattle.rb_base.specs.Outside.{Rose, Sends, SendsPart};
ghost use Rattle.system_devices.specs.KnownFiles.{AppendsPart, nothing_told};

use pieces::PutSink;
use rb_base::{Sink, SinkError};
use std::io::Write;

/// A writer of the system. It counts the writes that failed. What it sent is told by what the writer holds, where that is known.
#[derive(Drop)]
pub struct OutSink<W: Write> {
    writer: W,
    faults: u64,
}

impl<W: Write> OutSink<W> {
    /// This writer, of which no write failed.
    pub fn new(writer: W) -> OutSink<W>
        ensures faults { result.faults ≡ 0 }
        ensures writer { result.writer ≡ writer }
    {
        OutSink { writer, faults: 0 }
    }
}

impl<W: Write> Sink for OutSink<W> {
    ghost use Rattle.system_devices.specs.KnownFiles.{nothing_told};

    ghost sent = { λ _. nothing_told };

    ghost faults = { λ s. s.faults };

    fn put(&mut self, piece: &[u8]) -> Result<(), SinkError>
        ensures ok { OnOk result (Sends piece.now nothing_told nothing_told) }
        ensures err { OnErr result (SendsPart piece.now nothing_told nothing_told) }
        ensures cause { IsErrOf result SinkError.Failed → Rose self.old.faults self.new.faults }
        ensures memory { IsErrOf result SinkError.Memory → nothing_told ≡ nothing_told }
        ensures more_faults { self.old.faults ≤ self.new.faults }

        // What the writer holds grows by the whole piece, or by some first bytes of it.
        ensures whole { OnOk result (Appends (W.contents self.old.writer) (W.contents self.new.writer) piece.now) }
        ensures part { OnErr result (AppendsPart (W.contents self.old.writer) (W.contents self.new.writer) piece.now) }
    {
        let mut rest = piece;
        while !rest.is_empty() {
            match self.writer.write(rest) {
                Ok(0) | Err(_) => {
                    self.faults = self.faults.saturating_add(1);
                    return Err(SinkError::Failed);
                }
                Ok(count) => rest = &rest[count..],
            }
        }
        Ok(())
    }
}

impl<W: Write> PutSink for OutSink<W> {
    ghost use Rattle.std.specs.Prelude.{None};

    ghost puts = { λ _. None };

    fn put_piece(&mut self, piece: &[u8]) -> Result<(), SinkError> {
        self.put(piece)
    }
}
