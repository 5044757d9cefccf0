//! What programs of Smalltalk-80 (Goldberg and Robson 1983) do, as definitions over images whose names are texts: values,
//! stores, primitives, evaluation, runs, and when the runs of two images match; and their laws. No program text runs
//! here.
#![tactic(auto)]

mod laws;

pub use laws::{
    law_control_sends, law_depth, law_evaluates, law_matched, law_more_ticks, law_names_at_places,
    law_renamings_composed,
};
