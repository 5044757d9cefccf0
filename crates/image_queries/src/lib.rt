//! The lines that answer a question on an image: the methods that implement a selector, or the nodes that send one or that
//! mean a class or a variable, each with its place in the source.
#![tactic(auto)]

mod answers;
mod implementors;
mod lines;
mod marks;
mod meanings;
mod mentions;
mod nodes;
mod query;
mod titles;
mod uses;

pub use answers::report;
pub use lines::write_line;
pub use query::Query;
pub use titles::{doit_title, method_title, text_of};
