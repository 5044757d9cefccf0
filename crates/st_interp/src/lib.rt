//! The machine that runs the do-its of an image, with a stack of its own: what programs do, in the sense of Smalltalk-80
//! (Goldberg and Robson 1983). `run` tells what is seen of a run within a given number of ticks.
#![tactic(auto)]

mod calls;
mod literals;
mod machine;
mod nodes;
mod reading;
mod report;
mod resuming;
mod running;
mod shape;
mod state;
mod whole;

pub use report::RunReport;
pub use whole::run;
