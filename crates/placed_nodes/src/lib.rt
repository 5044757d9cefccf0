//! The nodes of a body with the paths that lead to them.
#![tactic(auto)]

mod placed;

pub use placed::{PlacedNode, placed_nodes};
