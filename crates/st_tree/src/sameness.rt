// When two trees are the same but for their comments.
ghost use Rattle.std.specs.Prelude.{◌≡◌, ◌↔◌, IsTrue};
ghost use Rattle.tree_model.specs.Tree.{literals_of, trees_of};
ghost use Rattle.tree_model.specs.Bare.{bare, bare_trees, bare_messages, bare_statements, SameBare};
ghost use Rattle.st_tree.specs.View.{messages_of, statements_of};

use crate::literal::{Literal, LiteralKind, Literals};
use crate::tree::{Messages, Node, NodeKind, Nodes, Statements};

impl Literal {
    /// Whether both are the same literal.
    #[cycle(same_literal)]
    pub fn same(&self, other: &Literal) -> bool
        ensures { IsTrue result ↔ (self.now ≡ other.now) }
    {
        match (&self.kind, &other.kind) {
            (LiteralKind::Number { text: a }, LiteralKind::Number { text: b }) => a.same(b),
            (LiteralKind::Str { text: a }, LiteralKind::Str { text: b }) => a.same(b),
            (LiteralKind::Symbol { text: a }, LiteralKind::Symbol { text: b }) => a.same(b),
            (LiteralKind::Char { byte: a }, LiteralKind::Char { byte: b }) => *a == *b,
            (LiteralKind::Array { items: a }, LiteralKind::Array { items: b }) => a.same(b),
            (LiteralKind::Bytes { items: a }, LiteralKind::Bytes { items: b }) => a.same(b),
            (LiteralKind::Word { name: a }, LiteralKind::Word { name: b }) => *a == *b,
            _ => false,
        }
    }
}

impl Literals {
    /// Whether both have the same literals in the same order.
    #[cycle(same_literal)]
    pub fn same(&self, other: &Literals) -> bool
        ensures { IsTrue result ↔ (literals_of self.now ≡ literals_of other.now) }
    {
        if self.items.len() != other.items.len() {
            return false;
        }
        for (i, item) in self.items.iter().enumerate() {
            if !item.same(&other.items[i]) {
                return false;
            }
        }
        true
    }
}

impl Node {
    #[cycle(same)]
    fn same(&self, other: &Node) -> bool
        ensures { IsTrue result ↔ (bare self.now ≡ bare other.now) }
    {
        match (&self.kind, &other.kind) {
            (NodeKind::Var { name: a }, NodeKind::Var { name: b }) => *a == *b,
            (NodeKind::Literal { value: a }, NodeKind::Literal { value: b }) => a.same(b),
            (
                NodeKind::Send {
                    receiver: r,
                    selector: s,
                    arguments: a,
                },
                NodeKind::Send {
                    receiver: q,
                    selector: t,
                    arguments: b,
                },
            ) => *s == *t && r.same(q) && a.same(b),
            (
                NodeKind::Cascade {
                    receiver: r,
                    messages: a,
                },
                NodeKind::Cascade {
                    receiver: q,
                    messages: b,
                },
            ) => r.same(q) && a.same(b),
            (NodeKind::Assign { name: a, value: r }, NodeKind::Assign { name: b, value: q }) => *a
                == *b
                && r.same(q),
            (
                NodeKind::Block {
                    parameters: a,
                    body: r,
                },
                NodeKind::Block {
                    parameters: b,
                    body: q,
                },
            ) => a.same(b)
                && r.temporaries.same(&q.temporaries)
                && r.statements.same(&q.statements),
            (NodeKind::Brace { items: a }, NodeKind::Brace { items: b }) => a.same(b),
            (NodeKind::Return { value: r }, NodeKind::Return { value: q }) => r.same(q),
            _ => false,
        }
    }
}

impl Nodes {
    #[cycle(same)]
    fn same(&self, other: &Nodes) -> bool
        ensures { IsTrue result ↔ (bare_trees (trees_of self.now) ≡ bare_trees (trees_of other.now)) }
    {
        if self.items.len() != other.items.len() {
            return false;
        }
        for (i, node) in self.items.iter().enumerate() {
            if !node.same(&other.items[i]) {
                return false;
            }
        }
        true
    }
}

impl Messages {
    #[cycle(same)]
    fn same(&self, other: &Messages) -> bool
        ensures { IsTrue result ↔ (bare_messages (messages_of self.now) ≡ bare_messages (messages_of other.now)) }
    {
        if self.items.len() != other.items.len() {
            return false;
        }
        for (i, message) in self.items.iter().enumerate() {
            let with = &other.items[i];
            if message.selector != with.selector || !message.arguments.same(&with.arguments) {
                return false;
            }
        }
        true
    }
}

impl Statements {
    #[cycle(same)]
    fn same(&self, other: &Statements) -> bool
        ensures { IsTrue result ↔ (bare_statements (statements_of self.now) ≡ bare_statements (statements_of other.now)) }
    {
        if self.items.len() != other.items.len() {
            return false;
        }
        for (i, statement) in self.items.iter().enumerate() {
            if !statement.node.same(&other.items[i].node) {
                return false;
            }
        }
        true
    }
}

/// Whether the trees are the same, whatever their comments.
pub fn same(a: &Node, b: &Node) -> bool
    ensures { IsTrue result ↔ SameBare a.now b.now }
{
    a.same(b)
}
