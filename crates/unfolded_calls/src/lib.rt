//! The law of unfolded calls and of let forms: an image in which the bodies of methods stand in place of some sends to self,
//! or values in place of temporaries, and the image before, match each other. A tool for laws on commands that extract and
//! inline code. No program text runs here.
#![tactic(auto)]

mod laws;

pub use laws::{law_one_target, law_unfolded_call, law_unfolds_itself};
