//! What a file-out of Squeak, Pharo or VisualWorks becomes as a file-out of this Smalltalk, or the first chunk that has no
//! form here.
//!
//! The functions of this crate are laws on the definitions: they do nothing.
#![tactic(auto)]

mod laws;

pub use laws::{has_one_import, keeps_file_outs};
