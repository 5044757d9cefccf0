//! The syntax trees of the program: nodes, literals, statements, methods, paths, and what is done with them.
#![tactic(auto)]

mod copies;
mod laws;
mod lending;
mod lists;
mod literal;
mod measures;
mod parts;
mod path;
mod replacing;
mod sameness;
mod tree;

pub use copies::{try_copy, try_copy_doit};
pub use laws::{law_restored, law_views};
pub use literal::{Literal, LiteralKind, Literals};
pub use measures::{height, size, size_doit};
pub use parts::{part_at, part_at_doit};
pub use path::{Part, Path};
pub use replacing::{BadPath, replace_at, replace_at_doit};
pub use sameness::same;
pub use tree::{
    Comments, Message, Messages, Method, Node, NodeKind, Nodes, Sequence, Statement, Statements,
};
