//! Laws of code in which a class, a variable or a selector gets another name: what changes mentions the former name, and what
//! the code after mentions is the new name or was mentioned before.
#![tactic(auto)]

mod laws;

pub use laws::{law_mentioned, law_names_after};
