// The syntax tree of a method.
ghost use Rattle.std.specs.Prelude.{◌≡◌, ◌+◌, ◌<◌, ◌≤◌};
ghost use Rattle.tree_model.specs.Tree.{trees_of};
ghost use Rattle.tree_model.specs.Measure.{weight, trees_weight, messages_weight, statements_weight};
ghost use Rattle.st_tree.specs.View.{tree_of, messages_of, statements_of};

use crate::literal::Literal;
use rb_base::{Ids, NameId, Text};
use std::alloc::Global;
use std::marker::Model;

/// An expression or a return. Contracts see it as abstract data, a `TreeOf ℕ`.
#[cycle(node)]
pub struct Node {
    /// What the node is.
    pub kind: NodeKind,
}

// A loop, so that a high tree takes no stack. Only if there is no memory for the list of nodes that wait is a node dropped by a call.
impl Drop for Node {
    #[cycle(node)]
    fn drop(self) {
        let Node { kind } = self;
        let Some(alloc) = allocator_of(&kind) else {
            return;
        };
        let mut waiting = Vec::new(alloc);
        put_below(kind, &mut waiting);
        while let Some(node) = waiting.pop() {
            put_below(node.into_kind(), &mut waiting);
        }
    }
}

/// What gave the memory of the nodes right below a node, where it may have some.
fn allocator_of(kind: &NodeKind) -> Option<Global> {
    match kind {
        NodeKind::Var { .. } | NodeKind::Literal { .. } => None,
        NodeKind::Send { receiver, .. } | NodeKind::Cascade { receiver, .. } => {
            Some(*Box::allocator(receiver))
        }
        NodeKind::Assign { value, .. } | NodeKind::Return { value } => Some(*Box::allocator(value)),
        NodeKind::Block { body, .. } => Some(*Box::allocator(body)),
        NodeKind::Brace { items } => Some(*items.items.allocator()),
    }
}

/// Puts the nodes right below a node after those that wait.
#[cycle(node)]
fn put_below(kind: NodeKind, waiting: &mut Vec<Node>)
    ensures { trees_weight (trees_of waiting.new.items) ≤ trees_weight (trees_of waiting.old.items) + weight (tree_of kind) }
{
    match kind {
        NodeKind::Var { name: _ } => {}
        NodeKind::Literal { value: _ } => {}
        NodeKind::Send {
            receiver,
            selector: _,
            arguments,
        } => {
            put_nodes(arguments, waiting);
            put_node(Box::into_inner(receiver), waiting);
        }
        NodeKind::Cascade { receiver, messages } => {
            put_messages(messages, waiting);
            put_node(Box::into_inner(receiver), waiting);
        }
        NodeKind::Assign { name: _, value } => put_node(Box::into_inner(value), waiting),
        NodeKind::Return { value } => put_node(Box::into_inner(value), waiting),
        NodeKind::Block {
            parameters: _,
            body,
        } => put_statements(Box::into_inner(body), waiting),
        NodeKind::Brace { items } => put_nodes(items, waiting),
    }
}

/// Puts a node after those that wait; if it finds no room, it is dropped.
#[cycle(node)]
fn put_node(node: Node, waiting: &mut Vec<Node>)
    ensures { trees_weight (trees_of waiting.new.items) ≤ trees_weight (trees_of waiting.old.items) + (weight node + 1) }
{
    let _ = waiting.push(node);
}

/// The same for nodes.
#[cycle(node)]
fn put_nodes(nodes: Nodes, waiting: &mut Vec<Node>)
    ensures { trees_weight (trees_of waiting.new.items) < trees_weight (trees_of waiting.old.items) + trees_weight (trees_of nodes) }
{
    let mut items = nodes.into_vec();
    while let Some(node) = items.pop() {
        put_node(node, waiting);
    }
}

/// The same for the arguments of messages.
#[cycle(node)]
fn put_messages(messages: Messages, waiting: &mut Vec<Node>)
    ensures { trees_weight (trees_of waiting.new.items) < trees_weight (trees_of waiting.old.items) + messages_weight (messages_of messages) }
{
    let mut items = messages.into_vec();
    while let Some(message) = items.pop() {
        let Message {
            selector: _,
            arguments,
        } = message;
        put_nodes(arguments, waiting);
    }
}

/// The same for the statements of a sequence.
#[cycle(node)]
fn put_statements(body: Sequence, waiting: &mut Vec<Node>)
    ensures { trees_weight (trees_of waiting.new.items) < trees_weight (trees_of waiting.old.items) + statements_weight (statements_of body.statements) }
{
    let Sequence {
        temporaries: _,
        statements,
        tail: _,
    } = body;
    let mut items = statements.into_vec();
    while let Some(statement) = items.pop() {
        let Statement { comments: _, node } = statement;
        put_node(node, waiting);
    }
}

impl Node {
    /// What the node is, which is not copied.
    pub fn into_kind(self) -> NodeKind
        ensures { tree_of result ≡ self }
    {
        let Node { kind } = self;
        kind
    }
}

/// What a node is.
#[cycle(node)]
#[derive(Drop)]
pub enum NodeKind {
    /// A variable.
    Var {
        name: NameId,
    },
    /// A literal.
    Literal {
        value: Literal,
    },
    /// A message and its receiver.
    Send {
        receiver: Box<Node>,
        selector: NameId,
        arguments: Nodes,
    },
    /// Messages to one receiver.
    Cascade {
        receiver: Box<Node>,
        messages: Messages,
    },
    /// An assignment to a variable.
    Assign {
        name: NameId,
        value: Box<Node>,
    },
    /// A block.
    Block {
        parameters: Ids,
        body: Box<Sequence>,
    },
    /// An array that is made of the values of expressions.
    Brace {
        items: Nodes,
    },
    /// A return, `^`.
    Return {
        value: Box<Node>,
    },
}

/// Nodes in order. Contracts see a list.
#[cycle(node)]
pub struct Nodes {
    pub(crate) items: Vec<Node>,
}

// Written out, so that for a proof the end of nodes is one call.
impl Drop for Nodes {
    #[cycle(node)]
    fn drop(self) {
        let Nodes { items: _ } = self;
    }
}

impl Nodes {
    /// The nodes, which are not copied.
    pub fn into_vec(self) -> Vec<Node>
        ensures { result.items ≡ self }
    {
        let Nodes { items } = self;
        items
    }
}

/// A message of a cascade.
#[cycle(node)]
#[derive(Drop)]
pub struct Message {
    pub selector: NameId,
    /// As many as the selector takes.
    pub arguments: Nodes,
}

/// Messages in order. Contracts see a list.
#[cycle(node)]
pub struct Messages {
    pub(crate) items: Vec<Message>,
}

// Written out, so that for a proof the end of messages is one call.
impl Drop for Messages {
    #[cycle(node)]
    fn drop(self) {
        let Messages { items: _ } = self;
    }
}

impl Messages {
    /// The messages, which are not copied.
    pub fn into_vec(self) -> Vec<Message>
        ensures { result.items ≡ self }
    {
        let Messages { items } = self;
        items
    }
}

/// A statement.
#[cycle(node)]
#[derive(Drop)]
pub struct Statement {
    /// The comments before and inside the statement.
    pub comments: Comments,
    pub node: Node,
}

/// Statements in order. Contracts see a list.
#[cycle(node)]
pub struct Statements {
    pub(crate) items: Vec<Statement>,
}

// Written out, so that for a proof the end of statements is one call.
impl Drop for Statements {
    #[cycle(node)]
    fn drop(self) {
        let Statements { items: _ } = self;
    }
}

impl Statements {
    /// The statements, which are not copied.
    pub fn into_vec(self) -> Vec<Statement>
        ensures { result.items ≡ self }
    {
        let Statements { items } = self;
        items
    }
}

/// The body of a method or a block, or a piece of code that is run by itself, a do-it.
#[cycle(node)]
#[derive(Drop)]
pub struct Sequence {
    pub temporaries: Ids,
    pub statements: Statements,
    /// The comments after the last statement.
    pub tail: Comments,
}

/// A method.
#[derive(Drop)]
pub struct Method {
    pub selector: NameId,
    /// The names of the arguments.
    pub arguments: Ids,
    /// The comments before the body.
    pub head: Comments,
    /// The number of the primitive, from 0 to 65,535, where the method has one.
    pub primitive: Option<u16>,
    pub body: Sequence,
}

/// Comments in order, each the bytes between its double quotes. Contracts see a list of lists.
pub struct Comments {
    pub(crate) items: Vec<Text>,
}

// Written out, so that for a proof the end of comments is one call.
impl Drop for Comments {
    fn drop(self) {
        let Comments { items: _ } = self;
    }
}

impl Comments {
    /// The comments, which are not copied.
    pub fn into_vec(self) -> Vec<Text>
        ensures { result.items ≡ self }
    {
        let Comments { items } = self;
        items
    }
}

impl Model for Comments {
    ghost use Rattle.std.specs.Prelude.{ℕ, List};

    ghost Value = { List (List ℕ) };

    ghost view = { λ a. a.items.items };
}

impl Model for Node {
    ghost use Rattle.std.specs.Prelude.{ℕ};
    ghost use Rattle.tree_model.specs.Tree.{TreeOf};
    ghost use Rattle.tree_model.specs.TreeCode.{coded_tree};

    ghost Value = { TreeOf ℕ };

    ghost coded = { coded_tree };

    ghost use Rattle.tree_model.specs.Measure.{weight};
    ghost use Rattle.st_tree.specs.View.{tree_of};

    ghost view = { λ a. tree_of a.kind };

    ghost size = { weight };

    ghost use Rattle.st_tree.specs.NodeFalls.{depth_le-weight};

    ghost size_decreases = { λ a h. depth_le-weight a.kind };
}

impl Model for Nodes {
    ghost use Rattle.std.specs.Prelude.{ℕ, List};
    ghost use Rattle.std.specs.Coded.{coded_list};
    ghost use Rattle.tree_model.specs.Tree.{TreeOf};
    ghost use Rattle.tree_model.specs.TreeCode.{coded_tree};

    ghost Value = { List (TreeOf ℕ) };

    ghost coded = { coded_list coded_tree };

    ghost use Rattle.std.proofs.Common.{arith};
    ghost use Rattle.tree_model.specs.Tree.{trees_of};
    ghost use Rattle.tree_model.specs.Measure.{trees_weight};
    ghost use Rattle.st_tree.specs.ListFalls.{most_le-trees_weight};

    ghost view = { λ a. a.items.items };

    ghost size = { λ ts. trees_weight (trees_of ts) };

    ghost size_decreases = { λ a h. omega (arith, most_le-trees_weight a.items.items) };
}

impl Model for Messages {
    ghost use Rattle.std.specs.Prelude.{List};
    ghost use Rattle.std.specs.Coded.{coded_list};
    ghost use Rattle.st_tree.specs.declared.tree.Message.{Message};
    ghost use Rattle.st_tree.specs.PartCode.{coded_message};

    ghost Value = { List Message };

    ghost coded = { coded_list coded_message };

    ghost use Rattle.std.proofs.Common.{arith};
    ghost use Rattle.tree_model.specs.Measure.{messages_weight};
    ghost use Rattle.st_tree.specs.View.{messages_of};

    ghost view = { λ a. a.items.items };

    ghost size = { λ ms. messages_weight (messages_of ms) };

    ghost use Rattle.st_tree.specs.NodeFalls.{most_le-messages_weight};

    ghost size_decreases = { λ a h. omega (arith, most_le-messages_weight a.items.items) };
}

impl Model for Statements {
    ghost use Rattle.std.specs.Prelude.{List};
    ghost use Rattle.std.specs.Coded.{coded_list};
    ghost use Rattle.st_tree.specs.declared.tree.Statement.{Statement};
    ghost use Rattle.st_tree.specs.PartCode.{coded_statement};

    ghost Value = { List Statement };

    ghost coded = { coded_list coded_statement };

    ghost use Rattle.std.proofs.Common.{arith};
    ghost use Rattle.tree_model.specs.Measure.{statements_weight};
    ghost use Rattle.st_tree.specs.View.{statements_of};

    ghost view = { λ a. a.items.items };

    ghost size = { λ ss. statements_weight (statements_of ss) };

    ghost use Rattle.st_tree.specs.NodeFalls.{most_le-statements_weight};

    ghost size_decreases = { λ a h. omega (arith, most_le-statements_weight a.items.items) };
}
