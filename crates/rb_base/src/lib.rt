//! Names, texts, the outside of the program, and the same outside in memory.
#![tactic(auto)]

mod memory;
mod memory_shelf;
mod memory_sink;
mod names;
mod shelf;
mod short;
mod sink;
mod steps;
mod text;

pub use memory::Memory;
pub use memory_shelf::{MemoryShelf, StoredFile};
pub use memory_sink::MemorySink;
pub use names::Names;
pub use shelf::{Shelf, ShelfError};
pub use sink::{Sink, SinkError};
pub use steps::Steps;
pub use text::{Ids, NameId, Span, Text};
