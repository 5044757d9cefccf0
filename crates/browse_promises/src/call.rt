// The call that the program's main function makes.
ghost use Rattle.std.specs.Prelude.{◌≡◌, ◌≢◌, ◌⊎◌, List, ℕ, map, string_bytes};
ghost use Rattle.rb_base.specs.Outside.{Rose, Sends, SendsPart};
ghost use Rattle.pieces.specs.Puts.{PutsAll, PutsUntilFailed, PutsUntilWanted};
ghost use Rattle.image_forms.specs.declared.status.Status.{Status};
ghost use Rattle.image_forms.specs.Loads.{world, IsHonest};
ghost use Rattle.command_words.specs.Forms.{form_of, files_of};
ghost use Rattle.image_forms.specs.Answers.{Answers};
ghost use Rattle.browse_laws.specs.Promises.{KeepsPromises};

use browse::{Status, browse};
use browse_laws::law_promises_kept;
use pieces::PutSink;
use rb_base::Shelf;
use std::alloc::Global;

/// Does what the words say, with the files of `shelf`, and sends the answer to `out`.
///
/// Unless memory is wanting or the output fails, what is sent keeps what is promised of the form. If `apply` ends with 0, it is the
/// image of the first file changed as the commands say: valid, read again, and with the runs of the image before, up to what is
/// renamed. If it ends with 1, what is sent names the first command that is refused and its first condition that is false. Commands
/// that are taken back at the end of a script leave nothing. What `changes` sends makes the old file the new one; what `team`
/// sends are the replies and the image at the end; what `strip` and `format` send runs as before; `import` sends a file that is
/// read as it is.
pub fn perform<F: Shelf, K: PutSink>(
    alloc: Global,
    words: &[String],
    shelf: &mut F,
    out: &mut K,
) -> Status
    ensures kept { result ≢ Status.Memory → result ≢ Status.Write → (bytes : List ℕ) ×
        KeepsPromises (world F.told F.faults F.taken shelf.old shelf.new) (map string_bytes words.now) result bytes
        × Sends bytes (K.sent out.old) (K.sent out.new) × PutsAll bytes (K.puts out.old) (K.puts out.new) }
    // If the outside tells of the files and no read fails, there is one answer, and it is that one.
    ensures exact { IsHonest (world F.told F.faults F.taken shelf.old shelf.new) (files_of (form_of (map string_bytes words.now))) →
        (status : Status) (bytes : List ℕ) →
        Answers (world F.told F.faults F.taken shelf.old shelf.new) (map string_bytes words.now) status bytes →
        result ≢ Status.Memory → result ≢ Status.Write → (result ≡ status) × Sends bytes (K.sent out.old) (K.sent out.new) }
    // If the output fails, a prefix of an answer was sent, and the last put is the one that failed.
    ensures write { result ≡ Status.Write → (status : Status) × (bytes : List ℕ) ×
        KeepsPromises (world F.told F.faults F.taken shelf.old shelf.new) (map string_bytes words.now) status bytes
        × SendsPart bytes (K.sent out.old) (K.sent out.new) × PutsUntilFailed bytes (K.puts out.old) (K.puts out.new) }
    ensures write_cause { result ≡ Status.Write → Rose (K.faults out.old) (K.faults out.new) }
    // If memory is wanting, no put was called and nothing sent, or a prefix of an answer was sent and no put failed but for memory.
    ensures memory { result ≡ Status.Memory → ((K.sent out.new ≡ K.sent out.old) × (K.puts out.new ≡ K.puts out.old)) ⊎ ((status : Status) × (bytes : List ℕ) ×
        KeepsPromises (world F.told F.faults F.taken shelf.old shelf.new) (map string_bytes words.now) status bytes
        × SendsPart bytes (K.sent out.old) (K.sent out.new) × PutsUntilWanted bytes (K.puts out.old) (K.puts out.new)) }
{
    law_promises_kept();
    browse(alloc, words, shelf, out)
}
