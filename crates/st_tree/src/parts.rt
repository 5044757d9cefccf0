// The part where a path leads.
ghost use Rattle.std.specs.Prelude.{◌≡◌, slice_get};
ghost use Rattle.std.specs.Option.{option_copied};
ghost use Rattle.tree_model.specs.Tree.{trees_of};
ghost use Rattle.tree_model.specs.Path.{nth, statement_trees, all_arguments, child, part_at, part_in};
ghost use Rattle.st_tree.specs.View.{messages_of, statements_of, sequence_of, method_of};

use crate::path::Path;
use crate::tree::{Messages, Method, Node, NodeKind, Nodes, Sequence, Statements};

/// The item of a number, counted from 0.
fn item_at<T>(items: &[T], at: usize) -> Option<&T>
    ensures { option_copied result ≡ slice_get items.now at }
{
    items.get(at)
}

impl Nodes {
    /// The node of a number, counted from 0; None where there are not so many.
    pub fn get(&self, at: usize) -> Option<&Node>
        ensures { option_copied result ≡ nth (trees_of self.now) at }
    {
        item_at(&self.items, at)
    }
}

impl Messages {
    /// The argument of a number, counted through all messages.
    fn argument(&self, at: usize) -> Option<&Node>
        ensures { option_copied result ≡ nth (all_arguments (messages_of self.now)) at }
    {
        let mut left = at;
        for message in &self.items {
            let count = message.arguments.items.len();
            if left < count {
                return message.arguments.get(left);
            }
            left -= count;
        }
        None
    }
}

impl Statements {
    /// The node of the statement of a number, counted from 0.
    fn node(&self, at: usize) -> Option<&Node>
        ensures { option_copied result ≡ nth (statement_trees (statements_of self.now)) at }
    {
        match item_at(&self.items, at) {
            Some(statement) => Some(&statement.node),
            None => None,
        }
    }
}

impl Node {
    /// Where one step leads; None where it leads nowhere.
    pub fn child(&self, step: usize) -> Option<&Node>
        ensures { option_copied result ≡ child self.now step }
    {
        match &self.kind {
            NodeKind::Var { .. } | NodeKind::Literal { .. } => None,
            NodeKind::Send {
                receiver,
                arguments,
                ..
            } => {
                if step == 0 {
                    Some(receiver)
                } else {
                    arguments.get(step - 1)
                }
            }
            NodeKind::Cascade { receiver, messages } => {
                if step == 0 {
                    Some(receiver)
                } else {
                    messages.argument(step - 1)
                }
            }
            NodeKind::Assign { value, .. } | NodeKind::Return { value } => {
                if step == 0 { Some(value) } else { None }
            }
            NodeKind::Block { body, .. } => body.statements.node(step),
            NodeKind::Brace { items } => items.get(step),
        }
    }

    /// Where a path leads from this node.
    pub(crate) fn part_at(&self, path: &[usize]) -> Option<&Node>
        ensures { option_copied result ≡ part_at self.now path.now }
    {
        let mut node = self;
        for step in path {
            node = node.child(*step)?;
        }
        Some(node)
    }
}

impl Sequence {
    /// Where a path leads from this sequence.
    fn part_at(&self, path: &[usize]) -> Option<&Node>
        ensures { option_copied result ≡ part_in (sequence_of self.now) path.now }
    {
        let (first, rest) = path.split_first()?;
        self.statements.node(*first)?.part_at(rest)
    }
}

/// The node of the method where the path leads; None exactly where it leads to no node.
pub fn part_at<'m>(method: &'m Method, path: &Path) -> Option<&'m Node>
    ensures { option_copied result ≡ part_in (method_of method.now).body path.now }
{
    method.body.part_at(path.as_slice())
}

/// The node of the do-it where the path leads; None exactly where it leads to no node.
pub fn part_at_doit<'m>(body: &'m Sequence, path: &Path) -> Option<&'m Node>
    ensures { option_copied result ≡ part_in (sequence_of body.now) path.now }
{
    body.part_at(path.as_slice())
}
