//! What names stand for in the program's trees: their declarations inside a method or a do-it, the free names of a part,
//! control sends, and assignments in closures.
#![tactic(auto)]

mod closures;
mod control;
mod free;
mod local;
mod name_set;
mod special;

pub use closures::{assigned_in_closure, assigned_in_closure_doit};
pub use control::is_control;
pub use free::{free_names, free_names_doit};
pub use local::{local_at, local_at_doit};
pub use scope_model::Local;
pub use special::is_pseudo;
