//! The importer of file-outs of Squeak, Pharo and VisualWorks: each chunk that has no form here, and for which there is one,
//! is written in that form. All others stay as they are, byte for byte.
#![tactic(auto)]

mod foreign;
mod importing;
mod next;
mod steps;
mod texts;

pub use importing::import;
