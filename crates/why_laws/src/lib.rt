//! That `why` answers whole file-outs and scripts. The function of this crate is a law on the definitions: it does nothing.
#![tactic(auto)]

mod laws;

pub use laws::has_some_answer;
