//! From code in which parts are other ones to images that unfold to each other: a tool for laws on commands that
//! extract and inline code. No program text runs here.
#![tactic(auto)]

mod laws;

pub use laws::{
    law_body_filled, law_extracted_once, law_inlined_once, law_inlined_values, law_part_unfolds,
    law_variable_accessed,
};
