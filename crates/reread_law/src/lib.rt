//! The canonical text of a syntax tree that some text spells, read again, spells that tree.
//!
//! The functions of this crate are laws on the definitions of the grammar and of canonical texts:
//! they do nothing.
#![tactic(auto)]

mod laws;

pub use laws::{spells_the_tree_again, tells_trees_apart, tells_which_trees_have_a_text};
