//! Images that differ in methods and classes that no run reaches, and the law that their runs are the same. No program
//! text runs here.
#![tactic(auto)]

mod laws;

pub use laws::law_resolved_lookups;
