//! Where the nodes of a text stand, found from the events of its reading without building a tree. Nothing recurs.
#![tactic(auto)]

mod building;
mod descent;
mod laws;
mod place;
mod runs;
mod search;

pub use laws::law_spans;
pub use place::{Place, Places};
pub use search::{NodeSpan, Spans};
