//! The edits that lead from one image to another are accepted, all of them, and make exactly the other; and each of them
//! names only what differs. No program text runs here.
#![tactic(auto)]

mod laws;

pub use laws::{
    chunks_name_differences, edits_name_differences, law_changes_make, makes_classes,
    needs_the_root, writes_examples,
};
