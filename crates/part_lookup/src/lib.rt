//! The part of a method that stands at a place of its source.
#![tactic(auto)]

mod kept;
mod lookup;

pub use kept::{KeptPart, keep_part, kept_part};
pub use lookup::{UsersPart, part_at, users_part};
