//! Resolved images in which names of classes, selectors and variables are mapped one to one, and the law that their runs
//! are the mapped runs: what all laws on renamings rest on. No program text runs here.
#![tactic(auto)]

mod laws;

pub use laws::{
    law_changed_images, law_changed_names, law_mapped_runs, law_matched_by_maps,
    law_matched_images, law_renamed_variable,
};
