//! A second form of what programs of Smalltalk-80 (Goldberg and Robson 1983) do: each name is replaced by what it means
//! at its place, and what is evaluated then holds no name of an argument or a temporary. The law says that it gives the
//! same runs. A tool for laws on images in which names or places of code change. No program text runs here.
#![tactic(auto)]

mod laws;

pub use laws::{law_resolved_runs, law_same_resolved};
