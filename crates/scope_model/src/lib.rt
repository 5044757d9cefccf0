//! What a name stands for inside a method of Smalltalk-80 (Goldberg and Robson 1983): its declaration, which names are
//! free in a part, which blocks are run in place by a control send and which assignments stand in closures. Definitions
//! over trees with any type of names, and their laws; no program text runs here.
#![tactic(auto)]

mod laws;
mod local;

pub use laws::{
    law_closures_named, law_control_named, law_free_names_named, law_local_named, law_numbers,
    law_uses,
};
pub use local::{ControlForm, Local};
