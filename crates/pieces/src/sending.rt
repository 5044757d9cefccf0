// Bytes that are sent in pieces.
ghost use Rattle.std.specs.Prelude.{◌≡◌, ◌≤◌, OnOk, OnErr, IsErrOf, List, ℕ};
ghost use Rattle.rb_base.specs.Outside.{Rose, Sends, SendsPart};
ghost use Rattle.pieces.specs.Puts.{PutsAll, PutsUntilFailed, PutsUntilWanted};

use crate::put_sink::PutSink;
use rb_base::SinkError;

/// How many bytes a piece has, but for the last one.
const PIECE: usize = 1024;

/// Sends the bytes in pieces of 1,024 bytes, the last one of 1 to 1,024. No put follows one that failed.
pub fn send<K: PutSink>(bytes: &[u8], out: &mut K) -> Result<(), SinkError>
    ensures ok { OnOk result (Sends bytes.now (K.sent out.old) (K.sent out.new)) }
    ensures err { OnErr result (SendsPart bytes.now (K.sent out.old) (K.sent out.new)) }
    ensures cause { IsErrOf result SinkError.Failed → Rose (K.faults out.old) (K.faults out.new) }
    ensures all { OnOk result (PutsAll bytes.now (K.puts out.old) (K.puts out.new)) }
    ensures failed { IsErrOf result SinkError.Failed → PutsUntilFailed bytes.now (K.puts out.old) (K.puts out.new) }
    ensures wanted { IsErrOf result SinkError.Memory → PutsUntilWanted bytes.now (K.puts out.old) (K.puts out.new) }
{
    let mut rest = bytes;
    while rest.len() > PIECE {
        let (piece, others) = rest.split_at(PIECE);
        out.put_piece(piece)?;
        rest = others;
    }
    if rest.is_empty() {
        Ok(())
    } else {
        out.put_piece(rest)
    }
}
