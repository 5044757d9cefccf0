// The height and the size of a tree.
ghost use Rattle.std.specs.Prelude.{◌≡◌, min};
ghost use Rattle.tree_model.specs.Tree.{literals_of, trees_of};
ghost use Rattle.tree_model.specs.Measure.{literal_height, literals_height, height, trees_height, messages_height, statements_height, size, trees_size, messages_size, statements_size, sequence_size, method_size};
ghost use Rattle.st_tree.specs.View.{messages_of, statements_of, sequence_of, method_of};

use crate::literal::{Literal, LiteralKind, Literals};
use crate::tree::{Messages, Method, Node, NodeKind, Nodes, Sequence, Statements};

impl Literal {
    #[cycle(literal_height)]
    fn height(&self) -> usize
        ensures { result ≡ min (literal_height self.now) usize.MAX }
    {
        match &self.kind {
            LiteralKind::Array { items } => items.height().saturating_add(1),
            LiteralKind::Number { .. } | LiteralKind::Str { .. } | LiteralKind::Symbol { .. } => 1,
            LiteralKind::Char { .. } | LiteralKind::Bytes { .. } | LiteralKind::Word { .. } => 1,
        }
    }
}

impl Literals {
    #[cycle(literal_height)]
    fn height(&self) -> usize
        ensures { result ≡ min (literals_height (literals_of self.now)) usize.MAX }
    {
        let mut most = 0usize;
        for item in &self.items {
            most = most.max(item.height());
        }
        most
    }
}

impl Node {
    #[cycle(height)]
    fn height(&self) -> usize
        ensures { result ≡ min (height self.now) usize.MAX }
    {
        match &self.kind {
            NodeKind::Var { .. } => 1,
            NodeKind::Literal { value } => value.height(),
            NodeKind::Send {
                receiver,
                arguments,
                ..
            } => receiver.height().max(arguments.height()).saturating_add(1),
            NodeKind::Cascade { receiver, messages } => receiver
                .height()
                .max(messages.height())
                .saturating_add(1),
            NodeKind::Assign { value, .. } => value.height().saturating_add(1),
            NodeKind::Block { body, .. } => body.statements.height().saturating_add(1),
            NodeKind::Brace { items } => items.height().saturating_add(1),
            NodeKind::Return { value } => value.height().saturating_add(1),
        }
    }

    #[cycle(size)]
    fn size(&self) -> usize
        ensures { result ≡ min (size self.now) usize.MAX }
    {
        match &self.kind {
            NodeKind::Var { .. } | NodeKind::Literal { .. } => 1,
            NodeKind::Send {
                receiver,
                arguments,
                ..
            } => receiver
                .size()
                .saturating_add(arguments.size())
                .saturating_add(1),
            NodeKind::Cascade { receiver, messages } => receiver
                .size()
                .saturating_add(messages.size())
                .saturating_add(1),
            NodeKind::Assign { value, .. } => value.size().saturating_add(1),
            NodeKind::Block { body, .. } => body.statements.size().saturating_add(1),
            NodeKind::Brace { items } => items.size().saturating_add(1),
            NodeKind::Return { value } => value.size().saturating_add(1),
        }
    }
}

impl Nodes {
    #[cycle(height)]
    fn height(&self) -> usize
        ensures { result ≡ min (trees_height (trees_of self.now)) usize.MAX }
    {
        let mut most = 0usize;
        for node in &self.items {
            most = most.max(node.height());
        }
        most
    }

    #[cycle(size)]
    fn size(&self) -> usize
        ensures { result ≡ min (trees_size (trees_of self.now)) usize.MAX }
    {
        let mut sum = 0usize;
        for node in &self.items {
            sum = sum.saturating_add(node.size());
        }
        sum
    }
}

impl Messages {
    #[cycle(height)]
    fn height(&self) -> usize
        ensures { result ≡ min (messages_height (messages_of self.now)) usize.MAX }
    {
        let mut most = 0usize;
        for message in &self.items {
            most = most.max(message.arguments.height());
        }
        most
    }

    #[cycle(size)]
    fn size(&self) -> usize
        ensures { result ≡ min (messages_size (messages_of self.now)) usize.MAX }
    {
        let mut sum = 0usize;
        for message in &self.items {
            sum = sum.saturating_add(message.arguments.size());
        }
        sum
    }
}

impl Statements {
    #[cycle(height)]
    fn height(&self) -> usize
        ensures { result ≡ min (statements_height (statements_of self.now)) usize.MAX }
    {
        let mut most = 0usize;
        for statement in &self.items {
            most = most.max(statement.node.height());
        }
        most
    }

    #[cycle(size)]
    fn size(&self) -> usize
        ensures { result ≡ min (statements_size (statements_of self.now)) usize.MAX }
    {
        let mut sum = 0usize;
        for statement in &self.items {
            sum = sum.saturating_add(statement.node.size());
        }
        sum
    }
}

/// The height of the tree: 1 for a variable or a literal, one more than the highest element for an array, one more than
/// the highest node in it for any other node; the greatest `usize` where the true height is greater.
pub fn height(node: &Node) -> usize
    ensures { result ≡ min (height node.now) usize.MAX }
{
    node.height()
}

/// How many nodes the method has; the greatest `usize` where there are more.
pub fn size(method: &Method) -> usize
    ensures { result ≡ min (method_size (method_of method.now)) usize.MAX }
{
    method.body.statements.size()
}

/// How many nodes the do-it has; the greatest `usize` where there are more.
pub fn size_doit(body: &Sequence) -> usize
    ensures { result ≡ min (sequence_size (sequence_of body.now)) usize.MAX }
{
    body.statements.size()
}
