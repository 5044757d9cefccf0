//! The law that two images whose look-ups agree on all that their runs reach have the same runs, and what is said for it of
//! trees, nodes and methods of two images.
//! No program text runs here.
#![tactic(auto)]

mod laws;

pub use laws::law_lookups_agree_on;
