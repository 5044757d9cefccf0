// An output that may tell its puts.
ghost use Rattle.std.specs.Prelude.{◌≡◌, ◌≤◌, [], ◌∷◌, List, ℕ, Option, OnOk, OnErr, IsErrOf};
ghost use Rattle.rb_base.specs.Outside.{Rose, Sends, SendsPart};
ghost use Rattle.pieces.specs.Puts.{Put, Taken, Failed, Adds};

use rb_base::{MemorySink, Sink, SinkError};

/// An output that may tell which puts were called.
pub trait PutSink: Sink {
    /// The puts that were called, in their order, where they are told. One that wanted memory is none.
    ghost puts: { Self → Option (List Put) };

    /// Sends the piece.
    fn put_piece(&mut self, piece: &[u8]) -> Result<(), SinkError>
        ensures ok { OnOk result (Sends piece.now (Self.sent self.old) (Self.sent self.new)) }
        ensures err { OnErr result (SendsPart piece.now (Self.sent self.old) (Self.sent self.new)) }
        ensures cause { IsErrOf result SinkError.Failed → Rose (Self.faults self.old) (Self.faults self.new) }
        ensures memory { IsErrOf result SinkError.Memory → Self.sent self.new ≡ Self.sent self.old }
        ensures more_faults { Self.faults self.old ≤ Self.faults self.new }

        ensures taken { OnOk result (Adds (Taken piece.now ∷ []) (puts self.old) (puts self.new)) }
        ensures failed { IsErrOf result SinkError.Failed → Adds (Failed piece.now ∷ []) (puts self.old) (puts self.new) }
        ensures wanted { IsErrOf result SinkError.Memory → puts self.new ≡ puts self.old };
}

impl PutSink for MemorySink {
    ghost use Rattle.std.specs.Prelude.{None};

    ghost puts = { λ _. None };

    fn put_piece(&mut self, piece: &[u8]) -> Result<(), SinkError> {
        self.put(piece)
    }
}
