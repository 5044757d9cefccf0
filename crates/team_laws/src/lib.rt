//! Laws of logs of sessions that share one book, whatever the book, in any interleaving. No program text runs here.
#![tactic(auto)]

mod laws;

pub use laws::{law_history, law_idle, law_log, law_runs, law_words};
