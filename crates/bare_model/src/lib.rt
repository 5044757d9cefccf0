//! Runs of Smalltalk-80 programs do not depend on sources, comments, categories and protocols: the law on images that
//! differ in these alone. No program text runs here.
#![tactic(auto)]

mod laws;

pub use laws::law_bare_runs;
