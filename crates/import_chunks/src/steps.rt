// What chunks become.
ghost use Rattle.std.specs.Prelude.{◌≡◌, ◌≤◌, ◌<◌, length, List, Some, false};
ghost use Rattle.rb_base.specs.Names.{name_at};
ghost use Rattle.tree_model.specs.Tree.{map_sequence};
ghost use Rattle.token_model.specs.declared.kind.Dialect.TheVariants.{Second};
ghost use Rattle.st_tree.specs.View.{sequence_of};
ghost use Rattle.chunk_format.specs.Blank.{blank_len};
ghost use Rattle.chunk_format.specs.Chunks.{IsChunk, piece};
ghost use Rattle.file_model.specs.Causes.{Cause};
ghost use Rattle.file_model.specs.Filing.{Text as Bytes};
ghost use Rattle.file_model.specs.Forms as forms;
ghost use Rattle.grammar_model.specs.Spelling.{SpellsDoIt};
ghost use Rattle.file_faults.specs.Faults.{cause_of};
ghost use Rattle.chunk_forms.specs.Told.{sent_text};
ghost use Rattle.import_model.specs.Foreign.{first_argument};
ghost use Rattle.import_model.specs.Steps as step;
ghost use Rattle.import_chunks.specs.Told.{next_text, strings_text, Answers};

use crate::foreign::{
    ForeignStrings, announces_comment, definition_cause, foreign_strings, opens_stamped,
};
use crate::next::{Next, Stop, stop_of};
use crate::texts::{comment_source, definition_source, run_source};
use chunk_format::{Chunk, source_in};
use chunk_forms::{ChunkForm, Sent, chunk_form, replacement_in, sent_in, string_first, text_of};
use file_faults::ImageCause;
use image_file::write_ended_chunk;
use rb_base::{NameId, Names, Text};
use st_parser::parse_doit;
use st_tree::Sequence;
use std::alloc::Global;

/// How many blanks the bytes begin with.
fn blank_count(bytes: &[u8]) -> usize
    ensures value { result ≡ blank_len bytes.now }
    ensures in_range { result ≤ length bytes.now }
{
    bytes
        .iter()
        .take_while(|byte| byte.is_ascii_whitespace())
        .count()
}

/// The blanks before the source of a chunk.
fn blanks_of<'t>(chunk: &Chunk<'t>) -> &'t [u8]
    ensures { result.now ≡ step.blanks_of (piece chunk.now) }
{
    &chunk.body[..blank_count(chunk.body)]
}

/// The chunk stays as it is.
fn keep(chunk: &Chunk<'_>, next: Next, out: &mut Text) -> Result<Next, Stop>
    ensures { (names : List Bytes) → Answers (λ r. r ≡ step.kept (piece chunk.now) (next_text names next)) names out.old out.new result }
{
    out.push_slice(chunk.body)?;
    out.push_slice(b"!")?;
    Ok(next)
}

/// Another source stands in the chunk, after the same blanks.
fn change(
    alloc: Global,
    chunk: &Chunk<'_>,
    source: &Text,
    next: Next,
    out: &mut Text,
) -> Result<Next, Stop>
    ensures { (names : List Bytes) → Answers (λ r. r ≡ step.changed (piece chunk.now) source.now (next_text names next)) names out.old out.new result }
{
    out.push_slice(blanks_of(chunk))?;
    write_ended_chunk(alloc, source.as_slice(), out)?;
    Ok(next)
}

/// A run of methods with a stamp begins.
fn open(
    alloc: Global,
    chunk: &Chunk<'_>,
    sent: &Sent<'_>,
    names: &Names,
    out: &mut Text,
) -> Result<Next, Stop>
    ensures { Answers (λ r. r ≡ step.opened (piece chunk.now) (sent_text names.now sent.now) (first_argument (sent_text names.now sent.now).arguments)) names.now out.old out.new result }
{
    match string_first(sent.arguments) {
        None => Err(Stop::Refused(ImageCause::UnknownDefinition)),
        Some(protocol) => {
            let class = text_of(names, sent.class);
            let source = run_source(alloc, class, sent.meta, protocol.text)?;
            change(alloc, chunk, &source, Next::InRun, out)
        }
    }
}

/// A comment is announced: only the blanks stay.
fn announce(chunk: &Chunk<'_>, sent: &Sent<'_>, names: &Names, out: &mut Text) -> Result<Next, Stop>
    ensures { Answers (λ r. r ≡ step.announced (piece chunk.now) (sent_text names.now sent.now)) names.now out.old out.new result }
{
    if sent.meta {
        return Err(Stop::Refused(ImageCause::UnknownDefinition));
    }
    out.push_slice(blanks_of(chunk))?;
    Ok(Next::AtComment {
        class: sent.class,
        chunk: chunk.number,
    })
}

/// A class is defined, unless the definition with these strings is refused here too.
fn define(
    alloc: Global,
    chunk: &Chunk<'_>,
    sent: &Sent<'_>,
    strings: &ForeignStrings<'_>,
    names: &Names,
    out: &mut Text,
) -> Result<Next, Stop>
    ensures { Answers (λ r. r ≡ step.defined (piece chunk.now) (sent_text names.now sent.now) (strings_text strings.now)) names.now out.old out.new result }
{
    if let Some(cause) = definition_cause(sent, strings, names) {
        return Err(Stop::Refused(cause));
    }
    let source = definition_source(alloc, text_of(names, sent.class), strings)?;
    change(alloc, chunk, &source, Next::Outside, out)
}

/// A message that is refused here for a cause, unless another Smalltalk files out by it.
fn take_foreign(
    alloc: Global,
    chunk: &Chunk<'_>,
    cause: ImageCause,
    sent: &Sent<'_>,
    names: &Names,
    out: &mut Text,
) -> Result<Next, Stop>
    ensures { (k : Cause) → cause_of cause ≡ Some k → Answers (λ r. r ≡ step.foreign (piece chunk.now) k (sent_text names.now sent.now)) names.now out.old out.new result }
{
    let selector = text_of(names, sent.selector);
    if opens_stamped(selector) {
        return open(alloc, chunk, sent, names, out);
    }
    if announces_comment(selector) {
        return announce(chunk, sent, names, out);
    }
    match foreign_strings(selector, sent.arguments) {
        None => Err(Stop::Refused(cause)),
        Some(strings) => define(alloc, chunk, sent, &strings, names, out),
    }
}

/// A chunk outside a run of methods that is refused here for a cause, unless another Smalltalk files out by it.
fn take_refused(
    alloc: Global,
    chunk: &Chunk<'_>,
    cause: ImageCause,
    body: &Sequence,
    names: &Names,
    out: &mut Text,
) -> Result<Next, Stop>
    ensures { (k : Cause) → cause_of cause ≡ Some k → Answers (λ r. r ≡ step.said (piece chunk.now) (map_sequence (name_at names.now) (sequence_of body.now)) (forms.Refuses k)) names.now out.old out.new result }
{
    match sent_in(body, names) {
        None => Err(Stop::Refused(cause)),
        Some(sent) => take_foreign(alloc, chunk, cause, &sent, names, out),
    }
}

/// A chunk outside a run of methods, by what it says here.
fn take_said(
    alloc: Global,
    chunk: &Chunk<'_>,
    body: &Sequence,
    names: &Names,
    out: &mut Text,
) -> Result<Next, Stop>
    ensures { Answers (λ r. r ≡ step.said (piece chunk.now) (map_sequence (name_at names.now) (sequence_of body.now)) (forms.form_of Second false (map_sequence (name_at names.now) (sequence_of body.now)))) names.now out.old out.new result }
{
    match chunk_form(body, false, names) {
        ChunkForm::HasPools => {
            take_refused(alloc, chunk, ImageCause::PoolsNotEmpty, body, names, out)
        }
        ChunkForm::IsUnknown => {
            take_refused(
                alloc,
                chunk,
                ImageCause::UnknownDefinition,
                body,
                names,
                out,
            )
        }
        ChunkForm::Opens { .. } => keep(chunk, Next::InRun, out),
        ChunkForm::OpensAt { .. } => keep(chunk, Next::InRun, out),
        _ => keep(chunk, Next::Outside, out),
    }
}

/// A chunk outside a run of methods, by its tree; one that replaces a do-it stays.
fn take_spelled(
    alloc: Global,
    chunk: &Chunk<'_>,
    body: &Sequence,
    names: &Names,
    out: &mut Text,
) -> Result<Next, Stop>
    ensures { Answers (λ r. r ≡ step.spelled (piece chunk.now) (map_sequence (name_at names.now) (sequence_of body.now))) names.now out.old out.new result }
{
    match replacement_in(body, names) {
        Some(_) => keep(chunk, Next::Outside, out),
        None => take_said(alloc, chunk, body, names, out),
    }
}

/// A chunk outside a run of methods, by its source.
fn take_doit(
    alloc: Global,
    chunk: &Chunk<'_>,
    source: &[u8],
    names: &mut Names,
    out: &mut Text,
) -> Result<Next, Stop>
    requires { 0 < length source.now }
    ensures { Answers (step.Becomes (piece chunk.now) step.Outside source.now) names.new out.old out.new result }
{
    match parse_doit(alloc, source, names) {
        Ok(body) => take_spelled(alloc, chunk, &body, names, out),
        Err(fault) => Err(stop_of(fault)),
    }
}

/// A chunk that is the comment of a class.
fn take_comment(
    alloc: Global,
    class: NameId,
    source: &[u8],
    names: &Names,
    out: &mut Text,
) -> Result<Next, Stop>
    ensures { Answers (λ r. r ≡ step.commented (name_at names.now class) source.now) names.now out.old out.new result }
{
    let message = comment_source(alloc, text_of(names, class), source)?;
    write_ended_chunk(alloc, message.as_slice(), out)?;
    Ok(Next::Outside)
}

/// A chunk in a run of methods, by its source.
fn take_in_run(chunk: &Chunk<'_>, source: &[u8], out: &mut Text) -> Result<Next, Stop>
    ensures { (names : List Bytes) → Answers (step.Becomes (piece chunk.now) step.InRun source.now) names out.old out.new result }
{
    if source.is_empty() {
        keep(chunk, Next::Outside, out)
    } else {
        keep(chunk, Next::InRun, out)
    }
}

/// A chunk outside a run of methods, by its source.
fn take_outside(
    alloc: Global,
    chunk: &Chunk<'_>,
    source: &[u8],
    names: &mut Names,
    out: &mut Text,
) -> Result<Next, Stop>
    ensures { Answers (step.Becomes (piece chunk.now) step.Outside source.now) names.new out.old out.new result }
{
    if source.is_empty() {
        keep(chunk, Next::Outside, out)
    } else {
        take_doit(alloc, chunk, source, names, out)
    }
}

/// A chunk, by its source and what it is.
fn take_source(
    alloc: Global,
    chunk: &Chunk<'_>,
    source: &[u8],
    now: Next,
    names: &mut Names,
    out: &mut Text,
) -> Result<Next, Stop>
    ensures { Answers (step.Becomes (piece chunk.now) (next_text names.old now) source.now) names.new out.old out.new result }
{
    match now {
        Next::AtComment { class, .. } => take_comment(alloc, class, source, names, out),
        Next::InRun => take_in_run(chunk, source, out),
        Next::Outside => take_outside(alloc, chunk, source, names, out),
    }
}

/// A chunk, by what it is. Its source is copied where a mark in it stands twice.
pub(crate) fn take_chunk(
    alloc: Global,
    chunk: &Chunk<'_>,
    now: Next,
    names: &mut Names,
    out: &mut Text,
) -> Result<Next, Stop>
    requires { IsChunk (piece chunk.now) }
    ensures { Answers (step.Imports (piece chunk.now) (next_text names.old now)) names.new out.old out.new result }
{
    let mut room = Text::new(alloc);
    let source = source_in(&mut room, alloc, chunk)?;
    take_source(alloc, chunk, source, now, names, out)
}
