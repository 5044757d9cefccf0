//! Runs of Smalltalk-80 programs as traces: the ticks that are wanted and the events that are told, in order, without a
//! number of ticks that is given. A tool for laws on runs whose numbers of ticks differ. No program text runs here.
#![tactic(auto)]

mod laws;

pub use laws::law_trace;
