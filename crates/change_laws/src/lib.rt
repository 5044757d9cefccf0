//! The edits that lead from one image to another make the other of it, where those of classes are accepted, or the classes
//! are the same. No program text runs here.
#![tactic(auto)]

mod laws;

pub use laws::{
    brings_the_other, edits_by_chunks, files_methods, files_the_rest, makes_the_other,
    makes_the_other_of_its_classes, mixes_classes, settles_at_places, settles_classes,
};
