// The loop over the chunks of a file-out.
ghost use Rattle.std.specs.Prelude.{◌≡◌, Ok, Err, IfOk, IfErr, OnOk, OnErr};
ghost use Rattle.chunk_format.specs.Chunks.{IsChunk, piece};
ghost use Rattle.file_model.specs.Reading.{refusal};
ghost use Rattle.import_model.specs.Steps as step;
ghost use Rattle.import_model.specs.Imported as imported;
ghost use Rattle.import_model.specs.Imported.{IsImported};
ghost use Rattle.import_chunks.specs.Told.{next_text, Tells, Becoming, RefusesChunk};

use crate::next::{Next, Stop};
use crate::steps::take_chunk;
use chunk_format::{Chunk, chunks};
use file_faults::{ImageCause, ImageFault, no_end, refused};
use rb_base::{Names, Text};
use std::alloc::Global;

/// The text without the byte order mark at its beginning, if it has one.
fn without_mark(text: &[u8]) -> &[u8]
    ensures { result.now ≡ imported.without_mark text.now }
{
    if text.starts_with(b"\xEF\xBB\xBF") {
        &text[3..]
    } else {
        text
    }
}

/// Imports a chunk, or tells its refusal with its number.
fn take_numbered(
    alloc: Global,
    chunk: &Chunk<'_>,
    now: Next,
    names: &mut Names,
    out: &mut Text,
) -> Result<Next, ImageFault>
    requires { IsChunk (piece chunk.now) }
    ensures taken { IfOk result (λ next. Becoming (step.Imports (piece chunk.now) (next_text names.old now)) (next_text names.new next) out.old out.new) }
    ensures refused { IfErr result (Tells (RefusesChunk (piece chunk.now) (next_text names.old now))) }
{
    match take_chunk(alloc, chunk, now, names, out) {
        Ok(next) => Ok(next),
        Err(Stop::Refused(cause)) => Err(refused(chunk.number, cause)),
        Err(Stop::Memory) => Err(ImageFault::Memory),
    }
}

/// Appends the blanks after the last chunk, unless that announced a comment.
fn end(now: Next, blanks: &[u8], names: &Names, out: &mut Text) -> Result<(), ImageFault>
    ensures ended { OnOk result (Ok out.new ≡ imported.after out.old (imported.ended (next_text names.now now) blanks.now)) }
    ensures refused { IfErr result (Tells (λ r. imported.ended (next_text names.now now) blanks.now ≡ Err r)) }
{
    if let Next::AtComment { chunk, .. } = now {
        return Err(refused(chunk, ImageCause::UnknownDefinition));
    }
    out.push_slice(blanks)?;
    Ok(())
}

/// Makes of a file-out of Squeak, Pharo or VisualWorks one of this Smalltalk, or tells the first chunk that has no form here.
/// A file-out that has no such chunk stays as it is, byte for byte.
///
/// `ImageFault::Refused` tells the number of the chunk, from 1, the place of the cause, and the cause; `ImageFault::Memory`
/// that memory was wanting. No recursion, and time and memory are linear in the text.
pub fn import(alloc: Global, text: &[u8]) -> Result<Text, ImageFault>
    ensures imported { IfOk result (λ out. IsImported text.now (Ok out)) }
    ensures refused { IfErr result (Tells (λ r. IsImported text.now (Err r))) }
{
    let mut rest = without_mark(text);
    let mut left = chunks(rest);
    let mut names = Names::new(alloc);
    let mut out = Text::new(alloc);
    let mut now = Next::Outside;
    'chunks: while let Some(found) = left.next() {
        match found {
            Ok(chunk) => {
                now = take_numbered(alloc, &chunk, now, &mut names, &mut out)?;
                rest = &rest[chunk.body.len() + 1..];
            }
            Err(unended) => return Err(no_end(unended)),
        }
    }
    end(now, rest, &names, &mut out)?;
    Ok(out)
}
