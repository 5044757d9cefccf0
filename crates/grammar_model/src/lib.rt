//! The grammar of Smalltalk-80 (Goldberg and Robson 1983) with brace arrays, and of patterns, in which metavariables stand, as a relation between tokens and trees;
//! the first fault of a text that has no tree; and the laws on both. No program text runs here.
#![tactic(auto)]

mod laws;
mod wanted;

pub use laws::{
    has_at_most_one_tree, has_one_node_at_a_place, has_one_run_at_a_place, is_text_or_stops,
    judges_examples, keeps_the_limits, leads_to_the_same_node, needs_no_looking_ahead,
    spells_doit_or_has_fault, spells_method_or_has_fault, spells_pattern_or_has_fault,
    spells_the_same_with_braces,
};
pub use wanted::Wanted;
