// The loop over the chunks of a text.
ghost use Rattle.std.specs.Prelude.{◌≡◌, IfOk, IfErr, Ok, Err};
ghost use Rattle.token_model.specs.declared.kind.Dialect.TheVariants.{Second};
ghost use Rattle.rb_base.specs.Names.{HasNoTwice};
ghost use Rattle.chunk_format.specs.Chunks.{IsChunk, piece};
ghost use Rattle.file_model.specs.Filing.{begun};
ghost use Rattle.file_model.specs.Reading.{Takes, ReadsText, IsImageOf, no_image};
ghost use Rattle.file_faults.specs.Faults.{IsRefused};
ghost use Rattle.st_kernel.specs.KernelText.{prelude_text};
ghost use Rattle.file_reading.specs.Filed.{text_image, image_so_far, filed, IsSoundSoFar, IsSound};
ghost use Rattle.file_reading.specs.Loop.{Tells, RefusesChunk};

use crate::reading::{Progress, Reading, Stop};
use crate::take::take_chunk;
use crate::words::names_differ;
use chunk_format::{Chunk, chunks};
use file_faults::{ImageFault, no_end, refused};
use placed_draft::PlacedDraft;
use rb_base::{Memory, Names};
use st_kernel::prelude;
use std::alloc::Global;

/// Nothing is read yet.
fn nothing(alloc: Global) -> Result<Progress, Memory>
    ensures image { IfOk result (λ reading. image_so_far reading ≡ no_image) }
    ensures sound { IfOk result IsSoundSoFar }
{
    Ok(Progress {
        names: Names::new(alloc),
        draft: Box::new(alloc, PlacedDraft::new(alloc))?,
    })
}

/// Begins another text behind what was read.
fn begin(mut reading: Progress) -> Progress
    requires { IsSoundSoFar reading }
    ensures sound { IsSoundSoFar result }
    ensures filed { filed result ≡ begun (image_so_far reading) }
{
    reading.draft.begin_file();
    reading
}

/// Takes a chunk, or tells its refusal with its number.
fn take_numbered(
    alloc: Global,
    kernel: bool,
    chunk: &Chunk<'_>,
    reading: Progress,
) -> Result<Progress, ImageFault>
    requires chunk { IsChunk (piece chunk.now) }
    requires sound { IsSoundSoFar reading }
    ensures sound { IfOk result IsSoundSoFar }
    ensures taken { IfOk result (λ new. Takes Second kernel (filed reading) (piece chunk.now) (Ok (filed new))) }
    ensures refused { IfErr result (Tells (RefusesChunk kernel (filed reading) (piece chunk.now))) }
{
    match take_chunk(alloc, kernel, chunk, reading) {
        Ok(new) => Ok(new),
        Err(Stop::Refused(cause)) => Err(refused(chunk.number, cause)),
        Err(Stop::Memory) => Err(ImageFault::Memory),
    }
}

/// Reads a text behind what was read, or tells the first chunk that is refused. The text is that of the kernel or not.
fn read_text(
    alloc: Global,
    kernel: bool,
    text: &[u8],
    reading: Progress,
) -> Result<Progress, ImageFault>
    requires { IsSoundSoFar reading }
    ensures sound { IfOk result IsSoundSoFar }
    ensures read { IfOk result (λ new. ReadsText Second kernel (image_so_far reading) text.now (Ok (filed new))) }
    ensures refused { IfErr result (Tells (λ refusal. ReadsText Second kernel (image_so_far reading) text.now (Err refusal))) }
{
    let mut reading = begin(reading);
    let mut left = chunks(text);
    'chunks: while let Some(found) = left.next() {
        match found {
            Ok(chunk) => reading = take_numbered(alloc, kernel, &chunk, reading)?,
            Err(unended) => return Err(no_end(unended)),
        }
    }
    Ok(reading)
}

/// Reads a file-out of Smalltalk-80 (Krasner, "The Smalltalk-80 Code File Format", 1983) behind the text of the kernel, and
/// gives the draft of its image with its names, or the first chunk that is refused.
///
/// `ImageFault::Refused` tells the number of the chunk, from 1, where the cause stands, and the cause; `ImageFault::Memory`
/// that memory was wanting. No recursion, and time and memory as the draft's calls take them.
pub fn read_draft(alloc: Global, text: &[u8]) -> Result<Reading, ImageFault>
    ensures sound { IfOk result IsSound }
    ensures distinct { IfOk result (λ reading. HasNoTwice reading.names) }
    ensures image { IfOk result (λ reading. IsImageOf Second prelude_text text.now (text_image reading)) }
    ensures refused { IfErr result (IsRefused prelude_text text.now) }
{
    let start = nothing(alloc)?;
    let kernel = match read_text(alloc, true, prelude(), start) {
        Ok(kernel) => kernel,
        Err(_) => return Err(ImageFault::Memory),
    };
    let progress = read_text(alloc, false, text, kernel)?;
    let reading = progress.finish(alloc)?;
    names_differ(&reading.names);
    Ok(reading)
}
