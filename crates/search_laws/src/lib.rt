//! The laws of where a search finds what it finds: among the nodes of the code, in preorder, each once. No program text runs
//! here.
#![tactic(auto)]

mod laws;

pub use laws::law_found_in_preorder;
