// What chunks make of what was read so far.
ghost use Rattle.std.specs.Prelude.{◌≡◌, ◌<◌, ℕ, length, IsSome, Some, None, Ok, Err};
ghost use Rattle.std.specs.Option.{option_map_or};
ghost use Rattle.std.specs.Result.{result_map_both};
ghost use Rattle.rb_base.specs.Names.{text_eq, name_at};
ghost use Rattle.token_model.specs.declared.kind.Dialect.TheVariants.{Second};
ghost use Rattle.tree_model.specs.Tree.{map_method, map_sequence};
ghost use Rattle.tree_model.specs.AllNames.{SequenceNames, MethodNames};
ghost use Rattle.st_tree.specs.View.{sequence_of, method_of};
ghost use Rattle.grammar_model.specs.Spelling.{SpellsDoIt};
ghost use Rattle.chunk_format.specs.Chunks.{IsChunk, piece};
ghost use Rattle.file_model.specs.Causes.{unless};
ghost use Rattle.file_model.specs.Changes.{RunOf, DefineAt, map_change, map_run};
ghost use Rattle.file_model.specs.Places.{no_places, opened_at, places_behind, placed};
ghost use Rattle.file_model.specs.Refusals.{run_refusals};
ghost use Rattle.file_model.specs.Applied.{changed, method_added};
ghost use Rattle.file_model.specs.Forms.{form_of};
ghost use Rattle.file_model.specs.Filing.{form_taken, with_doit, goes_on};
ghost use Rattle.file_model.specs.Reading.{Takes};
ghost use Rattle.file_numbers.specs.ChangeNames.{ChangeNames};
ghost use Rattle.image_draft.specs.Drafted.{change_of};
ghost use Rattle.file_reading.specs.Filed.{image_so_far, places_so_far, filed, run_in, IsSoundSoFar, IsNumberIn, text_doit};
ghost use Rattle.file_reading.specs.Said.{said_text, SaidNames};
ghost use Rattle.file_reading.specs.Answers.{Answers, TakesSource, change_taken};
ghost use Rattle.file_reading.specs.declared.reading.Stop.TheVariants as stop;

use crate::doits::doit_of;
use crate::faults::stop_of;
use crate::reading::{Progress, Stop};
use crate::replace::replace;
use crate::said::{Said, said_in};
use crate::words::names_differ;
use chunk_format::{Chunk, source_in};
use chunk_forms::replacement_in;
use file_faults::ImageCause;
use file_numbers::{changes_by_numbers, methods_by_numbers, places_by_numbers};
use image_draft::{Change, Definition, Run};
use rb_base::Text;
use st_parser::{parse_doit, parse_method};
use st_tree::{Method, Sequence};
use std::alloc::Global;

/// What was read, or the cause for which a chunk is refused.
fn told(reading: Progress, refused: Option<ImageCause>) -> Result<Progress, Stop>
    ensures { result ≡ option_map_or (λ cause. Err (stop.Refused cause)) refused (Ok reading) }
{
    match refused {
        None => Ok(reading),
        Some(cause) => Err(Stop::Refused(cause)),
    }
}

/// Makes a change, which ends a run of methods.
fn make(
    alloc: Global,
    kernel: bool,
    change: Change,
    mut reading: Progress,
) -> Result<Progress, Stop>
    requires sound { IsSoundSoFar reading }
    requires known { ChangeNames (IsNumberIn reading.names) (change_of change) }
    ensures { Answers (λ r. r ≡ change_taken kernel (filed reading) (map_change (name_at reading.names) (change_of change))) result }
{
    changes_by_numbers();
    places_by_numbers();
    names_differ(&reading.names);
    let refused = reading.draft.change(alloc, kernel, change)?;
    told(reading, refused)
}

/// Defines a class and states a place for it, which ends a run of methods.
fn define_at(
    alloc: Global,
    kernel: bool,
    definition: Definition,
    place: usize,
    mut reading: Progress,
) -> Result<Progress, Stop>
    requires sound { IsSoundSoFar reading }
    requires known { ChangeNames (IsNumberIn reading.names) (DefineAt definition place) }
    ensures { Answers (λ r. r ≡ change_taken kernel (filed reading) (map_change (name_at reading.names) (DefineAt definition place))) result }
{
    changes_by_numbers();
    places_by_numbers();
    names_differ(&reading.names);
    let refused = reading.draft.define_at(alloc, kernel, definition, place)?;
    told(reading, refused)
}

/// Begins a run of methods. A place may be stated for the first of them.
fn open(run: Run, place: Option<usize>, mut reading: Progress) -> Result<Progress, Stop>
    requires sound { IsSoundSoFar reading }
    requires known { IsNumberIn reading.names run.class }
    ensures { Answers (λ r. r ≡ unless (run_refusals text_eq (image_so_far reading).classes (map_run (name_at reading.names) run)) (goes_on (opened_at place (places_so_far reading)) (Some (map_run (name_at reading.names) run)) (image_so_far reading))) result }
{
    methods_by_numbers();
    names_differ(&reading.names);
    let refused = reading.draft.open(run, place);
    told(reading, refused)
}

/// Puts methods and classes at the places that were stated for them.
fn settle(alloc: Global, mut reading: Progress) -> Result<Progress, Stop>
    requires { IsSoundSoFar reading }
    ensures { Answers (λ r. r ≡ Ok (goes_on no_places None (placed text_eq (places_so_far reading) (image_so_far reading)))) result }
{
    places_by_numbers();
    names_differ(&reading.names);
    reading.draft.settle(alloc)?;
    Ok(reading)
}

/// Puts a do-it at the end.
fn add_doit(
    alloc: Global,
    source: &[u8],
    body: Sequence,
    mut reading: Progress,
) -> Result<Progress, Stop>
    requires sound { IsSoundSoFar reading }
    requires known { SequenceNames (IsNumberIn reading.names) (sequence_of body) }
    ensures { Answers (λ r. r ≡ Ok (with_doit (filed reading) (text_doit reading.names source.now body))) result }
{
    let doit = doit_of(alloc, source, body)?;
    reading.draft.add_doit(doit)?;
    Ok(reading)
}

/// Makes what a chunk outside a run of methods says.
fn take_said(
    alloc: Global,
    kernel: bool,
    source: &[u8],
    body: Sequence,
    said: Said,
    reading: Progress,
) -> Result<Progress, Stop>
    requires sound { IsSoundSoFar reading }
    requires known { SequenceNames (IsNumberIn reading.names) (sequence_of body) }
    requires said_known { SaidNames (IsNumberIn reading.names) said }
    ensures { Answers (λ r. r ≡ form_taken kernel (filed reading) (text_doit reading.names source.now body) (said_text reading.names said)) result }
{
    match said {
        Said::Evaluates => add_doit(alloc, source, body, reading),
        Said::Changes(change) => make(alloc, kernel, change, reading),
        Said::DefinesAt(definition, place) => define_at(alloc, kernel, definition, place, reading),
        Said::Opens(run) => open(run, None, reading),
        Said::OpensAt(run, place) => open(run, Some(place), reading),
        Said::Settles => settle(alloc, reading),
        Said::HasPools => Err(Stop::Refused(ImageCause::PoolsNotEmpty)),
        Said::IsUnknown => Err(Stop::Refused(ImageCause::UnknownDefinition)),
    }
}

/// Takes a chunk outside a run of methods, by the do-it that its source spells.
fn take_body(
    alloc: Global,
    kernel: bool,
    source: &[u8],
    body: Sequence,
    mut reading: Progress,
) -> Result<Progress, Stop>
    requires sound { IsSoundSoFar reading }
    requires known { SequenceNames (IsNumberIn reading.names) (sequence_of body) }
    ensures { Answers (λ r. r ≡ form_taken kernel (filed reading) (text_doit reading.names source.now body) (form_of Second kernel (map_sequence (name_at reading.names) (sequence_of body)))) result }
{
    let said = said_in(alloc, kernel, &body, &mut reading.names)?;
    take_said(alloc, kernel, source, body, said, reading)
}

/// Takes a chunk outside a run of methods whose source spells a do-it, by what it says or by the do-it that it replaces.
fn take_spelled(
    alloc: Global,
    kernel: bool,
    source: &[u8],
    body: Sequence,
    reading: Progress,
) -> Result<Progress, Stop>
    requires sound { IsSoundSoFar reading }
    requires outside { run_in reading.draft.value ≡ None }
    requires some { 0 < length source.now }
    requires known { SequenceNames (IsNumberIn reading.names) (sequence_of body) }
    requires spelled { SpellsDoIt Second source.now (map_sequence (name_at reading.names) (sequence_of body)) }
    ensures { Answers (TakesSource kernel (filed reading) source.now) result }
{
    match replacement_in(&body, &reading.names) {
        Some(replacement) => replace(alloc, kernel, &replacement, reading),
        None => take_body(alloc, kernel, source, body, reading),
    }
}

/// Takes a chunk outside a run of methods, by its source.
fn take_doit(
    alloc: Global,
    kernel: bool,
    source: &[u8],
    mut reading: Progress,
) -> Result<Progress, Stop>
    requires sound { IsSoundSoFar reading }
    requires outside { run_in reading.draft.value ≡ None }
    requires some { 0 < length source.now }
    ensures { Answers (TakesSource kernel (filed reading) source.now) result }
{
    match parse_doit(alloc, source, &mut reading.names) {
        Ok(body) => take_spelled(alloc, kernel, source, body, reading),
        Err(fault) => Err(stop_of(fault)),
    }
}

/// Puts a method of the run in.
fn put_method(
    alloc: Global,
    kernel: bool,
    source: &[u8],
    tree: Method,
    mut reading: Progress,
) -> Result<Progress, Stop>
    requires sound { IsSoundSoFar reading }
    requires known { MethodNames (IsNumberIn reading.names) (method_of tree) }
    ensures { (run : RunOf ℕ) → run_in reading.draft.value ≡ Some run → Answers (λ r. r ≡ result_map_both (goes_on (places_behind (name_at reading.names run.class) run.meta (name_at reading.names (method_of tree).selector) (places_so_far reading)) (Some (map_run (name_at reading.names) run))) (λ e. e) (method_added text_eq kernel (map_run (name_at reading.names) run) source.now (map_method (name_at reading.names) (method_of tree)) (image_so_far reading))) result }
{
    methods_by_numbers();
    places_by_numbers();
    names_differ(&reading.names);
    let source = Text::from_slice(alloc, source)?;
    let refused = reading.draft.add_method(alloc, kernel, source, tree)?;
    told(reading, refused)
}

/// Takes a chunk of a run of methods, by its source.
fn take_method(
    alloc: Global,
    kernel: bool,
    source: &[u8],
    mut reading: Progress,
) -> Result<Progress, Stop>
    requires sound { IsSoundSoFar reading }
    requires inside { IsSome (run_in reading.draft.value) }
    requires some { 0 < length source.now }
    ensures { Answers (TakesSource kernel (filed reading) source.now) result }
{
    match parse_method(alloc, source, kernel, &mut reading.names) {
        Ok(tree) => put_method(alloc, kernel, source, tree, reading),
        Err(fault) => Err(stop_of(fault)),
    }
}

/// Takes a blank chunk, which ends a run of methods.
fn take_blank(mut reading: Progress) -> Progress
    requires { IsSoundSoFar reading }
    ensures sound { IsSoundSoFar result }
    ensures blank { filed result ≡ record (filed reading) { run = None } }
{
    reading.draft.end_run();
    reading
}

/// Takes a chunk by its source.
fn take_source(
    alloc: Global,
    kernel: bool,
    source: &[u8],
    reading: Progress,
) -> Result<Progress, Stop>
    requires { IsSoundSoFar reading }
    ensures { Answers (TakesSource kernel (filed reading) source.now) result }
{
    if source.is_empty() {
        Ok(take_blank(reading))
    } else if reading.draft.in_run() {
        take_method(alloc, kernel, source, reading)
    } else {
        take_doit(alloc, kernel, source, reading)
    }
}

/// Takes a chunk. Its source is copied where a mark in it stands twice, or where it is kept.
pub(crate) fn take_chunk(
    alloc: Global,
    kernel: bool,
    chunk: &Chunk<'_>,
    reading: Progress,
) -> Result<Progress, Stop>
    requires chunk { IsChunk (piece chunk.now) }
    requires sound { IsSoundSoFar reading }
    ensures { Answers (Takes Second kernel (filed reading) (piece chunk.now)) result }
{
    let mut room = Text::new(alloc);
    let source = source_in(&mut room, alloc, chunk)?;
    take_source(alloc, kernel, source, reading)
}
