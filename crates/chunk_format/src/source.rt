// The source of a chunk, and a source written as a chunk.
ghost use Rattle.std.specs.Prelude.{◌≡◌, ◌++◌, false, if◌then◌else◌, IsOk, IfOk, OnOk, OnErr, MatchBool};
ghost use Rattle.std.specs.Borrow.{sem};
ghost use Rattle.rb_base.specs.Doubling.{IsPaired, doubled as doubled_text};
ghost use Rattle.chunk_format.specs.Blank.{drop_blanks};
ghost use Rattle.chunk_format.specs.Chunks.{IsChunk, piece};
ghost use Rattle.chunk_format.specs.Source.{IsSource, AppendsSource};
ghost use Rattle.chunk_format.specs.Room.{EndsAs};

use crate::MARK;
use crate::chunk_iter::{Chunk, count_blanks};
use memchr::memchr;
use rb_base::{Memory, Text};
use std::alloc::Global;

/// Appends the chunk's source: the body without its leading blanks, with each pair of marks made one
/// mark. Takes memory from `alloc` only where the chunk is doubled. On want of memory `out` is as before.
pub fn source_of(alloc: Global, chunk: &Chunk<'_>, out: &mut Text) -> Result<(), Memory>
    requires { IsChunk (piece chunk.now) }
    ensures ok { OnOk result (AppendsSource chunk.now.body.now out.old out.new) }
    ensures err { OnErr result (out.new ≡ out.old) }
{
    let paired = without_blanks(chunk.body);
    if !chunk.doubled {
        return out.push_slice(paired);
    }
    let source = halve_marks(alloc, paired)?;
    out.push_slice(source.as_slice())
}

/// The chunk's source. Where the chunk is not doubled it is a part of the body, which takes no memory,
/// and `room` stays as it is. Else `room` becomes the source. On want of memory `room` is as before.
pub fn source_in<'a, 't: 'a>(
    room: &'a mut Text,
    alloc: Global,
    chunk: &Chunk<'t>,
) -> Result<&'a [u8], Memory>
    requires { IsChunk (piece chunk.now) }
    ensures* room { sem 𝓛 (EndsAs chunk.now.doubled room.entry result) }
    ensures source { IfOk result (λ source. IsSource chunk.now.body.now source.now) }
    ensures no_memory { chunk.now.doubled ≡ false → IsOk result }
{
    fill_room(room, alloc, chunk)?;
    Ok(source_from(room, chunk))
}

/// Makes the room the chunk's source, where the chunk is doubled.
fn fill_room(room: &mut Text, alloc: Global, chunk: &Chunk<'_>) -> Result<(), Memory>
    requires { IsChunk (piece chunk.now) }
    ensures ok { OnOk result (MatchBool chunk.now.doubled
        (IsSource chunk.now.body.now room.new) (room.new ≡ room.old)) }
    ensures err { OnErr result (room.new ≡ room.old) }
    ensures no_memory { chunk.now.doubled ≡ false → IsOk result }
{
    if !chunk.doubled {
        return Ok(());
    }
    let source = halve_marks(alloc, without_blanks(chunk.body))?;
    *room = Text::from_vec(alloc, source)?;
    Ok(())
}

/// The room where the chunk is doubled, and else the body without its leading blanks.
fn source_from<'a, 't: 'a>(room: &'a Text, chunk: &Chunk<'t>) -> &'a [u8]
    ensures { result.now ≡ (if chunk.now.doubled then room.now else drop_blanks chunk.now.body.now) }
{
    if chunk.doubled {
        room.as_slice()
    } else {
        without_blanks(chunk.body)
    }
}

/// Appends the source with each mark written twice. The mark that ends the chunk is left to the caller.
/// Memory is taken from `alloc` only where the source holds a mark. On want of memory `out` is as before.
pub fn write_chunk(alloc: Global, source: &[u8], out: &mut Text) -> Result<(), Memory>
    ensures ok { OnOk result (out.new ≡ out.old ++ doubled_text 33 source.now) }
    ensures err { OnErr result (out.new ≡ out.old) }
{
    if memchr(MARK, source).is_none() {
        return out.push_slice(source);
    }
    let written = double_marks(alloc, source)?;
    out.push_slice(written.as_slice())
}

/// The bytes without the blanks that they begin with.
fn without_blanks(bytes: &[u8]) -> &[u8]
    ensures { result.now ≡ drop_blanks bytes.now }
{
    let blanks = count_blanks(bytes);
    &bytes[blanks..]
}

/// The bytes with each pair of marks made one mark.
fn halve_marks(alloc: Global, paired: &[u8]) -> Result<Vec<u8>, Memory>
    requires { IsPaired 33 paired.now }
    ensures { IfOk result (λ halved. doubled_text 33 halved.items ≡ paired.now) }
{
    let mut halved = Vec::new(alloc);
    let mut from = 0;
    while let Some(skipped) = memchr(MARK, &paired[from..]) {
        let at = from + skipped;
        halved.extend_from_slice(&paired[from..at + 1])?;
        from = at + 2;
    }
    halved.extend_from_slice(&paired[from..])?;
    Ok(halved)
}

/// The bytes with each mark written twice.
fn double_marks(alloc: Global, source: &[u8]) -> Result<Vec<u8>, Memory>
    ensures { IfOk result (λ written. written.items ≡ doubled_text 33 source.now) }
{
    let mut written = Vec::new(alloc);
    let mut from = 0;
    while let Some(skipped) = memchr(MARK, &source[from..]) {
        let behind = from + skipped + 1;
        written.extend_from_slice(&source[from..behind])?;
        written.push(MARK)?;
        from = behind;
    }
    written.extend_from_slice(&source[from..])?;
    Ok(written)
}
