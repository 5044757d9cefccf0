//! Lists of what is in the way of a refused command: the witnesses, and walks over the classes, the methods and the do-its of
//! an image that gather them in its order.
#![tactic(auto)]

mod classes;
mod code;
mod nodes;
mod witness;

pub use classes::{ClassTest, classes_that, defines_any};
pub use code::{
    Whose, nodes_that, slot_witnesses, sought_in_code, sought_in_doits, sought_in_methods,
};
pub use nodes::{Sought, text_of};
pub use witness::{Owner, Witness, push_if, push_node_if};
