//! Syntax trees of Smalltalk-80 (Goldberg and Robson 1983) as abstract data: definitions of names, heights, paths,
//! replacement and comments, and their laws. No program text runs here.
#![tactic(auto)]

mod laws;

pub use laws::{
    law_bare, law_heights, law_names, law_nodes, law_nodes_named, law_normal, law_parts,
    law_parts_named, law_replaced, law_replaced_in,
};
