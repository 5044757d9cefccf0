// The one call of the program.
ghost use Rattle.std.specs.Prelude.{◌≡◌, ◌≢◌, ◌⊎◌, [], IfOk, List, ℕ, map, string_bytes};
ghost use Rattle.rb_base.specs.Outside.{Rose, Sends, SendsPart};
ghost use Rattle.pieces.specs.Puts.{PutsAll, PutsUntilFailed, PutsUntilWanted};
ghost use Rattle.image_forms.specs.declared.status.Status.{Status};
ghost use Rattle.command_words.specs.Forms.{form_of, files_of};
ghost use Rattle.image_forms.specs.Loads.{World, world, IsHonest};
ghost use Rattle.image_forms.specs.Answers.{Answers};

use crate::apply::apply;
use crate::changes::changes;
use crate::demo::demo;
use crate::run::run;
use crate::team::team;
use crate::why::why;
use apply_model::has_one_answer_in_image;
use changes_model::has_one_change_in_image;
use command_words::{Words, words_of};
use image_forms::{Status, find, format, help, import, rewrite, search, strip, usage, version};
use import_model::has_one_import;
use pieces::{PutSink, send};
use rb_base::{Memory, Shelf, SinkError, Text};
use rewrite_model::{has_one_list_of_lines, has_one_pattern, has_one_rule};
use script_model::has_one_reading;
use std::alloc::Global;

/// Builds the whole answer.
fn answer<F: Shelf>(
    alloc: Global,
    words: &[String],
    shelf: &mut F,
    out: &mut Text,
) -> Result<Status, Memory>
    requires { out.old ≡ [] }
    ensures answered { IfOk result (λ status. Answers (world F.told F.faults F.taken shelf.old shelf.new) (map string_bytes words.now) status out.new) }
    ensures same { F.told shelf.new ≡ F.told shelf.old }
{
    match words_of(words) {
        Words::Apply { image, script } => apply(alloc, shelf, image, script, out),
        Words::Changes { image, script } => changes(alloc, shelf, image, script, out),
        Words::Why { image, script } => why(alloc, shelf, image, script, out),
        Words::Team { image, log } => team(alloc, shelf, image, log, out),
        Words::Import { file } => import(alloc, shelf, file, out),
        Words::Format { image } => format(alloc, shelf, image, out),
        Words::Run {
            image,
            expression,
            budget,
        } => run(alloc, shelf, image, expression, budget, out),
        Words::Find { image, question } => find(alloc, shelf, image, question, out),
        Words::Strip {
            image,
            expression,
            sets,
        } => strip(alloc, shelf, image, expression, sets, out),
        Words::Search { image, pattern } => search(alloc, shelf, image, pattern, out),
        Words::Rewrite {
            image,
            pattern,
            replacement,
        } => rewrite(alloc, shelf, image, pattern, replacement, out),
        Words::Help => help(out),
        Words::Version => version(out),
        Words::Demo { number } => demo(alloc, number, out),
        Words::NoForm => usage(out),
    }
}

/// Does what the words say, with the files of `shelf`, and sends the answer to `out`: the whole of it is built before the first
/// piece is sent, and no piece follows one that failed.
pub fn browse<F: Shelf, K: PutSink>(
    alloc: Global,
    words: &[String],
    shelf: &mut F,
    out: &mut K,
) -> Status
    // Unless memory is wanting or the output fails, the status and what is sent answer the words.
    ensures answered { result ≢ Status.Memory → result ≢ Status.Write → (bytes : List ℕ) ×
        Answers (world F.told F.faults F.taken shelf.old shelf.new) (map string_bytes words.now) result bytes
        × Sends bytes (K.sent out.old) (K.sent out.new) × PutsAll bytes (K.puts out.old) (K.puts out.new) }
    // Where the outside tells of the files and no read fails, there is one answer, and it is that one.
    ensures exact { IsHonest (world F.told F.faults F.taken shelf.old shelf.new) (files_of (form_of (map string_bytes words.now))) →
        (status : Status) (bytes : List ℕ) →
        Answers (world F.told F.faults F.taken shelf.old shelf.new) (map string_bytes words.now) status bytes →
        result ≢ Status.Memory → result ≢ Status.Write → (result ≡ status) × Sends bytes (K.sent out.old) (K.sent out.new) }
    // Where the output fails, a prefix of an answer was sent, and the last put is the one that failed.
    ensures write { result ≡ Status.Write → (status : Status) × (bytes : List ℕ) ×
        Answers (world F.told F.faults F.taken shelf.old shelf.new) (map string_bytes words.now) status bytes
        × SendsPart bytes (K.sent out.old) (K.sent out.new) × PutsUntilFailed bytes (K.puts out.old) (K.puts out.new) }
    ensures write_cause { result ≡ Status.Write → Rose (K.faults out.old) (K.faults out.new) }
    // Where memory is wanting, no put was called and nothing sent, or a prefix of an answer was sent and no put failed but for memory.
    ensures memory { result ≡ Status.Memory → ((K.sent out.new ≡ K.sent out.old) × (K.puts out.new ≡ K.puts out.old)) ⊎ ((status : Status) × (bytes : List ℕ) ×
        Answers (world F.told F.faults F.taken shelf.old shelf.new) (map string_bytes words.now) status bytes
        × SendsPart bytes (K.sent out.old) (K.sent out.new) × PutsUntilWanted bytes (K.puts out.old) (K.puts out.new)) }
    ensures same { F.told shelf.new ≡ F.told shelf.old }
{
    has_one_answer();
    let mut bytes = Text::new(alloc);
    let Ok(status) = answer(alloc, words, shelf, &mut bytes) else {
        return Status::Memory;
    };
    match send(bytes.as_slice(), out) {
        Ok(()) => status,
        Err(SinkError::Failed) => Status::Write,
        Err(SinkError::Memory) => Status::Memory,
    }
}

/// Where the outside tells of the files that the words name and no read fails, words have at most one answer.
pub fn has_one_answer()
    ensures { (w : World) (words : List (List ℕ)) (s t : Status) (x y : List ℕ) → IsHonest w (files_of (form_of words)) →
        Answers w words s x → Answers w words t y → (s ≡ t) × (x ≡ y) }
{
    apply_model::has_one_answer();
    has_one_answer_in_image();
    has_one_change_in_image();
    play_model::has_one_answer();
    why_model::has_one_answer();
    has_one_import();
    has_one_reading();
    has_one_pattern();
    has_one_rule();
    has_one_list_of_lines();
}
