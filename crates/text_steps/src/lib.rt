//! Steps of certificates over texts: texts stand for metavariables, and a step over texts is the step over metavariables. No
//! program text runs here.
#![tactic(auto)]

mod laws;

pub use laws::{law_mark_texts, law_text_steps};
