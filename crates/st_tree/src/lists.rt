// The lists of a tree.
ghost use Rattle.std.specs.Prelude.{◌≡◌, [], ◌∷◌, ◌++◌, length, OnOk, OnErr};

use crate::tree::{Comments, Message, Messages, Node, Nodes, Statement, Statements};
use rb_base::{Memory, Text};
use std::alloc::Global;

impl Nodes {
    /// No nodes, which takes no memory.
    pub fn new(alloc: Global) -> Nodes
        ensures { result ≡ [] }
    {
        Nodes {
            items: Vec::new(alloc),
        }
    }

    /// The list of these nodes, which are not copied.
    pub fn from_vec(items: Vec<Node>) -> Nodes
        ensures { result ≡ items.items }
    {
        Nodes { items }
    }

    /// The nodes.
    pub fn as_slice(&self) -> &[Node]
        ensures { result.now ≡ self.now }
    {
        self.items.as_slice()
    }

    /// How many nodes there are.
    pub fn len(&self) -> usize
        ensures { result ≡ length self.now }
    {
        self.items.len()
    }

    /// Appends a node; on want of memory it is dropped.
    pub fn push(&mut self, item: Node) -> Result<(), Memory>
        ensures ok { OnOk result (self.new ≡ self.old ++ item ∷ []) }
        ensures err { OnErr result (self.new ≡ self.old) }
    {
        self.items.push(item)?;
        Ok(())
    }
}

impl Messages {
    /// No messages, which takes no memory.
    pub fn new(alloc: Global) -> Messages
        ensures { result ≡ [] }
    {
        Messages {
            items: Vec::new(alloc),
        }
    }

    /// The list of these messages, which are not copied.
    pub fn from_vec(items: Vec<Message>) -> Messages
        ensures { result ≡ items.items }
    {
        Messages { items }
    }

    /// The messages.
    pub fn as_slice(&self) -> &[Message]
        ensures { result.now ≡ self.now }
    {
        self.items.as_slice()
    }

    /// How many messages there are.
    pub fn len(&self) -> usize
        ensures { result ≡ length self.now }
    {
        self.items.len()
    }

    /// Appends a message; on want of memory it is dropped.
    pub fn push(&mut self, item: Message) -> Result<(), Memory>
        ensures ok { OnOk result (self.new ≡ self.old ++ item ∷ []) }
        ensures err { OnErr result (self.new ≡ self.old) }
    {
        self.items.push(item)?;
        Ok(())
    }
}

impl Statements {
    /// No statements, which takes no memory.
    pub fn new(alloc: Global) -> Statements
        ensures { result ≡ [] }
    {
        Statements {
            items: Vec::new(alloc),
        }
    }

    /// The list of these statements, which are not copied.
    pub fn from_vec(items: Vec<Statement>) -> Statements
        ensures { result ≡ items.items }
    {
        Statements { items }
    }

    /// The statements.
    pub fn as_slice(&self) -> &[Statement]
        ensures { result.now ≡ self.now }
    {
        self.items.as_slice()
    }

    /// How many statements there are.
    pub fn len(&self) -> usize
        ensures { result ≡ length self.now }
    {
        self.items.len()
    }

    /// Appends a statement; on want of memory it is dropped.
    pub fn push(&mut self, item: Statement) -> Result<(), Memory>
        ensures ok { OnOk result (self.new ≡ self.old ++ item ∷ []) }
        ensures err { OnErr result (self.new ≡ self.old) }
    {
        self.items.push(item)?;
        Ok(())
    }
}

impl Comments {
    /// No comments, which takes no memory.
    pub fn new(alloc: Global) -> Comments
        ensures { result ≡ [] }
    {
        Comments {
            items: Vec::new(alloc),
        }
    }

    /// The list of these comments, which are not copied.
    pub fn from_vec(items: Vec<Text>) -> Comments
        ensures { result ≡ items.items }
    {
        Comments { items }
    }

    /// The comments.
    pub fn as_slice(&self) -> &[Text]
        ensures { result.now ≡ self.now }
    {
        self.items.as_slice()
    }

    /// How many comments there are.
    pub fn len(&self) -> usize
        ensures { result ≡ length self.now }
    {
        self.items.len()
    }

    /// Appends a comment; on want of memory it is dropped.
    pub fn push(&mut self, item: Text) -> Result<(), Memory>
        ensures ok { OnOk result (self.new ≡ self.old ++ item ∷ []) }
        ensures err { OnErr result (self.new ≡ self.old) }
    {
        self.items.push(item)?;
        Ok(())
    }
}
