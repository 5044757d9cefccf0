// Copies of trees, with new memory.
ghost use Rattle.std.specs.Prelude.{◌≡◌, IfOk};

use crate::literal::{Literal, LiteralKind, Literals};
use crate::tree::{
    Comments, Message, Messages, Method, Node, NodeKind, Nodes, Sequence, Statement, Statements,
};
use rb_base::Memory;
use std::alloc::Global;

impl Literal {
    /// A copy.
    #[cycle(copy_literal)]
    pub fn try_copy(&self, alloc: Global) -> Result<Literal, Memory>
        ensures { IfOk result (λ c. c ≡ self.now) }
    {
        let kind = match &self.kind {
            LiteralKind::Number { text } => LiteralKind::Number {
                text: text.try_copy(alloc)?,
            },
            LiteralKind::Str { text } => LiteralKind::Str {
                text: text.try_copy(alloc)?,
            },
            LiteralKind::Symbol { text } => LiteralKind::Symbol {
                text: text.try_copy(alloc)?,
            },
            LiteralKind::Char { byte } => LiteralKind::Char { byte: *byte },
            LiteralKind::Array { items } => LiteralKind::Array {
                items: items.try_copy(alloc)?,
            },
            LiteralKind::Bytes { items } => LiteralKind::Bytes {
                items: items.try_copy(alloc)?,
            },
            LiteralKind::Word { name } => LiteralKind::Word { name: *name },
        };
        Ok(Literal { kind })
    }
}

impl Literals {
    /// A copy.
    #[cycle(copy_literal)]
    pub fn try_copy(&self, alloc: Global) -> Result<Literals, Memory>
        ensures { IfOk result (λ c. c ≡ self.now) }
    {
        let mut items = Vec::new(alloc);
        for item in &self.items {
            items.push(item.try_copy(alloc)?)?;
        }
        Ok(Literals { items })
    }
}

impl Node {
    /// A copy.
    #[cycle(copy)]
    pub fn try_copy(&self, alloc: Global) -> Result<Node, Memory>
        ensures { IfOk result (λ c. c ≡ self.now) }
    {
        let kind = match &self.kind {
            NodeKind::Var { name } => NodeKind::Var { name: *name },
            NodeKind::Literal { value } => NodeKind::Literal {
                value: value.try_copy(alloc)?,
            },
            NodeKind::Send {
                receiver,
                selector,
                arguments,
            } => {
                let receiver = Box::new(alloc, receiver.try_copy(alloc)?)?;
                let arguments = arguments.try_copy(alloc)?;
                NodeKind::Send {
                    receiver,
                    selector: *selector,
                    arguments,
                }
            }
            NodeKind::Cascade { receiver, messages } => {
                let messages = messages.try_copy(alloc)?;
                let receiver = Box::new(alloc, receiver.try_copy(alloc)?)?;
                NodeKind::Cascade { receiver, messages }
            }
            NodeKind::Assign { name, value } => {
                let value = Box::new(alloc, value.try_copy(alloc)?)?;
                NodeKind::Assign { name: *name, value }
            }
            NodeKind::Block { parameters, body } => {
                let body = Box::new(alloc, body.try_copy(alloc)?)?;
                let parameters = parameters.try_copy(alloc)?;
                NodeKind::Block { parameters, body }
            }
            NodeKind::Brace { items } => NodeKind::Brace {
                items: items.try_copy(alloc)?,
            },
            NodeKind::Return { value } => {
                let value = Box::new(alloc, value.try_copy(alloc)?)?;
                NodeKind::Return { value }
            }
        };
        Ok(Node { kind })
    }
}

impl Nodes {
    /// A copy.
    #[cycle(copy)]
    pub fn try_copy(&self, alloc: Global) -> Result<Nodes, Memory>
        ensures { IfOk result (λ c. c ≡ self.now) }
    {
        let mut items = Vec::new(alloc);
        for node in &self.items {
            items.push(node.try_copy(alloc)?)?;
        }
        Ok(Nodes { items })
    }
}

impl Messages {
    /// A copy.
    #[cycle(copy)]
    pub fn try_copy(&self, alloc: Global) -> Result<Messages, Memory>
        ensures { IfOk result (λ c. c ≡ self.now) }
    {
        let mut items = Vec::new(alloc);
        for message in &self.items {
            let arguments = message.arguments.try_copy(alloc)?;
            items.push(Message {
                selector: message.selector,
                arguments,
            })?;
        }
        Ok(Messages { items })
    }
}

impl Statements {
    /// A copy.
    #[cycle(copy)]
    pub fn try_copy(&self, alloc: Global) -> Result<Statements, Memory>
        ensures { IfOk result (λ c. c ≡ self.now) }
    {
        let mut items = Vec::new(alloc);
        for statement in &self.items {
            let comments = statement.comments.try_copy(alloc)?;
            let node = statement.node.try_copy(alloc)?;
            items.push(Statement { comments, node })?;
        }
        Ok(Statements { items })
    }
}

impl Sequence {
    #[cycle(copy)]
    pub(crate) fn try_copy(&self, alloc: Global) -> Result<Sequence, Memory>
        ensures { IfOk result (λ c. c ≡ self.now) }
    {
        Ok(Sequence {
            temporaries: self.temporaries.try_copy(alloc)?,
            statements: self.statements.try_copy(alloc)?,
            tail: self.tail.try_copy(alloc)?,
        })
    }
}

impl Comments {
    /// A copy.
    pub fn try_copy(&self, alloc: Global) -> Result<Comments, Memory>
        ensures { IfOk result (λ c. c ≡ self.now) }
    {
        let mut items = Vec::new(alloc);
        for text in &self.items {
            items.push(text.try_copy(alloc)?)?;
        }
        Ok(Comments { items })
    }
}

/// A copy of the method, with its comments.
pub fn try_copy(alloc: Global, method: &Method) -> Result<Method, Memory>
    ensures { IfOk result (λ copied. copied ≡ method.now) }
{
    Ok(Method {
        selector: method.selector,
        arguments: method.arguments.try_copy(alloc)?,
        head: method.head.try_copy(alloc)?,
        primitive: method.primitive,
        body: method.body.try_copy(alloc)?,
    })
}

/// A copy of the do-it, with its comments.
pub fn try_copy_doit(alloc: Global, body: &Sequence) -> Result<Sequence, Memory>
    ensures { IfOk result (λ copied. copied ≡ body.now) }
{
    body.try_copy(alloc)
}
