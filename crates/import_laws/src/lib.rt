//! What holds of each file-out that was imported. The functions of this crate are laws on the definitions: they do nothing.
#![tactic(auto)]

mod laws;

pub use laws::{imports_once, leaves_to_the_reader};
