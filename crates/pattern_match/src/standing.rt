// What stands at the metavariables of a pattern.

use patterns::Meta;
use rb_base::{NameId, Text};
use st_tree::{Node, Statement};

/// What stands for a metavariable, by references into the tree.
#[derive(Drop)]
pub enum Standing<'n> {
    /// A node.
    Part(&'n Node),
    /// Statements in order.
    Run(&'n [Statement]),
    /// A selector.
    Selector(NameId),
    /// A keyword, with its colon.
    Keyword(Text),
    /// A selector and its arguments.
    Message(NameId, &'n [Node]),
}

/// A node that stands for a metavariable, or in what does.
#[derive(Drop)]
pub struct Part<'n> {
    /// The steps from the node that matches down to this one.
    pub path: Vec<usize>,
    pub node: &'n Node,
}

/// A place of a metavariable in a match.
#[derive(Drop)]
pub struct Place<'n> {
    pub meta: Meta,
    pub bound: Standing<'n>,
    /// The nodes of which it is made, where the metavariable is doubled; else none.
    pub parts: Vec<Part<'n>>,
}

/// Where a match has come.
#[derive(Drop)]
pub(crate) struct Walk<'n> {
    /// The steps from the node that matches down to where the walk is.
    pub(crate) steps: Vec<usize>,
    /// The places that are found.
    pub(crate) found: Vec<Place<'n>>,
}
