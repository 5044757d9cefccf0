//! The patterns of the program: trees in which metavariables stand, and the rules that are made of two of them.
#![tactic(auto)]

mod tree;

pub use tree::{
    Meta, Pattern, PatternKeyword, PatternKind, PatternMessage, PatternSelector, PatternSequence,
    PatternStatement, Rule,
};
