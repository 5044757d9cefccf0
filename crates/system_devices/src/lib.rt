//! The files and the output of the system, as what the program reads and writes.
#![tactic(auto)]

mod file_shelf;
mod folder;
mod out_sink;
mod read_up_to;

pub use file_shelf::FileShelf;
pub use folder::Folder;
pub use out_sink::OutSink;
