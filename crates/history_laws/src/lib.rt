//! Scripts keep runs where their single commands do: the image after a script is matched by the image before up to what the
//! script renames, and each start expression that the script admits is only one more do-it of both.
//!
//! The functions of this crate are laws on the definitions: they do nothing.
#![tactic(auto)]

mod laws;

pub use laws::{law_admitted, law_history, law_nil_admitted, law_renamings_said};
