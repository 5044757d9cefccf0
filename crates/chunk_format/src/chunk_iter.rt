// The chunks of a text, one after another.
ghost use Rattle.std.specs.Prelude.{◌≡◌, ℕ, ◌+◌, ◌<◌, ◌≤◌, List, Option, IfSome, IfNone, length, take, drop};
ghost use Rattle.std.specs.Iterator.{at_most};
ghost use Rattle.rb_base.specs.Doubling.{IsPaired};
ghost use Rattle.chunk_format.specs.Blank.{blank_len};
ghost use Rattle.chunk_format.specs.Left.{start_of};
ghost use Rattle.chunk_format.specs.Chunks.{IsNext, IsCut, holds_mark};

use crate::MARK;
use memchr::memchr;
use std::marker::Model;

/// A chunk of a text, borrowed from it. What `chunks` gives has a body in which each mark stands
/// twice, and `doubled` says whether there is one; the calls that read a chunk's source require that.
#[derive(Clone, Copy)]
pub struct Chunk<'t> {
    /// Which chunk of the text it is, from 1.
    pub number: usize,
    /// The offset in the text of the body's first byte, in bytes from 0, leading blanks included.
    pub at: usize,
    /// The bytes before the mark that ends the chunk.
    pub body: &'t [u8],
    /// Whether the body holds a mark, which stands there twice.
    pub doubled: bool,
}

/// A byte that is not blank stands behind the last chunk.
#[derive(Clone, Copy, Debug, PartialEq, Eq)]
pub struct Unended {
    /// The number of the chunk that is not ended, from 1.
    pub number: usize,
    /// The offset in the text of the first byte behind the last chunk that is not blank, in bytes from 0.
    pub at: usize,
}

/// The chunks of a text, from some place on. Contracts see the next chunk's number, where it begins,
/// and the bytes from there on.
#[derive(Drop)]
pub struct ChunkIter<'t> {
    number: usize,
    at: usize,
    rest: &'t [u8],
}

impl<'t> Model for ChunkIter<'t> {
    ghost use Rattle.std.specs.Prelude.{◌+◌, ◌<◌, ◌≤◌, ◌^◌, length};
    ghost use Rattle.chunk_format.specs.Left.{Left};

    ghost Value = { Left };

    ghost view = { λ c. record { number = c.number; at = c.at; rest = c.rest.now } };

    ghost invariant = { λ c. (c.number ≤ c.at + 1) × (c.at + length c.rest.now < 2 ^ 63) };
}

/// The chunks of the text. Takes no memory.
pub fn chunks<'t>(text: &'t [u8]) -> ChunkIter<'t>
    ensures { result ≡ start_of text.now }
{
    ChunkIter {
        number: 1,
        at: 0,
        rest: text,
    }
}

/// How many blanks the bytes begin with.
pub(crate) fn count_blanks(bytes: &[u8]) -> usize
    ensures value { result ≡ blank_len bytes.now }
    ensures in_range { result ≤ length bytes.now }
{
    bytes
        .iter()
        .take_while(|byte| byte.is_ascii_whitespace())
        .count()
}

/// Where the body of the first chunk ends, and whether it holds a mark.
fn body_end(text: &[u8]) -> Option<(usize, bool)>
    ensures in_range { IfSome result (λ found. found.0 < length text.now) }
    ensures found { IfSome result (λ found. IsCut text.now (take found.0 text.now) (drop (found.0 + 1) text.now)) }
    ensures doubled { IfSome result (λ found. found.1 ≡ holds_mark (take found.0 text.now)) }
    ensures none { IfNone result (IsPaired 33 text.now) }
{
    let mut from = 0;
    let mut doubled = false;
    while let Some(skipped) = memchr(MARK, &text[from..]) {
        let at = from + skipped;
        if at + 1 == text.len() || text[at + 1] != MARK {
            return Some((at, doubled));
        }
        from = at + 2;
        doubled = true;
    }
    None
}

impl<'t> Iterator for ChunkIter<'t> {
    type Item = Result<Chunk<'t>, Unended>;

    ghost next_gives = { IsNext };

    ghost remaining = { λ c. at_most (length c.rest) };

    /// The next chunk, or `Unended` where there is none and a byte that is not blank is left.
    /// After the last chunk, or after `Unended`, it gives `None`. Takes no memory.
    fn next(&mut self) -> Option<Result<Chunk<'t>, Unended>> {
        let rest = self.rest;
        if let Some((end, doubled)) = body_end(rest) {
            let (body, behind) = rest.split_at(end);
            let chunk = Chunk {
                number: self.number,
                at: self.at,
                body,
                doubled,
            };
            self.number += 1;
            self.at += end + 1;
            self.rest = &behind[1..];
            return Some(Ok(chunk));
        }
        self.rest = &[];
        let blanks = count_blanks(rest);
        if blanks == rest.len() {
            return None;
        }
        Some(Err(Unended {
            number: self.number,
            at: self.at + blanks,
        }))
    }
}
