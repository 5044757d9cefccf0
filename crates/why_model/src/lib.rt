//! What `why` answers to whole file-outs and scripts: what is in the way of the first command that is refused. Definitions and
//! laws over them; no program text runs here.
//!
//! The functions of this crate are laws on the definitions: they do nothing.
#![tactic(auto)]

mod laws;

pub use laws::{
    has_one_answer, has_one_answer_in_image, has_one_explanation, law_explained, law_refused,
    law_rules,
};
