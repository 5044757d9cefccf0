//! The part of a method or a do-it where a path leads, lent to be changed in place.
#![tactic(auto)]

mod part;
mod step;
mod way;

pub use part::{part_mut, part_mut_doit, put_at, put_at_doit};
