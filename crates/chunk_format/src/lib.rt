//! The chunks of a file-out: a text is cut at its marks, and a mark inside a chunk is written twice.
//! After Krasner, "The Smalltalk-80 Code File Format", 1983.
#![tactic(auto)]

mod chunk_iter;
mod laws;
mod source;

pub use chunk_iter::{Chunk, ChunkIter, Unended, chunks};
pub use laws::{has_one_list, has_one_source, written_is_read};
pub use source::{source_in, source_of, write_chunk};

/// The mark that ends a chunk, and that stands twice inside one.
const MARK: u8 = b'!';
