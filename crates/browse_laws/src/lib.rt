//! What is promised of the answers of `apply`, `changes`, `why`, `team`, `strip`, `format` and `import`, over the bytes that
//! the outside holds and those that are sent.
//!
//! The functions of this crate are laws on the definitions: they do nothing.
#![tactic(auto)]

mod changed;
mod explained;
mod imported;
mod laws;
mod played;
mod printed;
mod promised;

pub use changed::law_filed_in;
pub use explained::law_told_why;
pub use imported::law_imported;
pub use laws::{law_applied, law_undone};
pub use played::law_played;
pub use printed::{law_formatted, law_stripped};
pub use promised::law_promises_kept;
