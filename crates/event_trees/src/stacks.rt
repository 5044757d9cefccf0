// The parts of a tree that wait for what they are part of.
ghost use Rattle.std.specs.Prelude.{◌≡◌, IfOk, OnOk};
ghost use Rattle.tree_model.specs.Tree.{array, bytes, var, word};
ghost use Rattle.st_tree.specs.LiteralView.{literal_of};
ghost use Rattle.event_trees.specs.Stacks.{nothing, with_node, with_literal, with_array, with_operand, with_send, with_message, with_cascade, with_target, with_value, with_scope, with_block, with_brace, with_return, with_statement};
ghost use Rattle.event_trees.specs.Held.{held};

use crate::last::{boxed, put, take_last, take_one};
use rb_base::{Ids, Memory, NameId};
use st_tree::{
    Comments, Literal, LiteralKind, Literals, Message, Messages, Node, NodeKind, Nodes, Sequence,
    Statement, Statements,
};
use std::alloc::Global;

/// What a block declares.
#[derive(Drop)]
pub struct Scope {
    pub parameters: Ids,
    pub temporaries: Ids,
}

/// The parts that wait, in the order in which they came.
#[derive(Drop)]
pub struct Stacks {
    pub nodes: Vec<Node>,
    pub literals: Vec<Literal>,
    /// Messages of cascades.
    pub messages: Vec<Message>,
    pub statements: Vec<Statement>,
    /// Variables of assignments that have no value yet.
    pub targets: Vec<NameId>,
    pub scopes: Vec<Scope>,
}

/// How many nodes there is room for at once.
const NODES: usize = 16;

impl Stacks {
    /// No part waits. The statements get room for one, since those at the end are kept with the tree, and many a text has one.
    pub fn with_room(alloc: Global) -> Result<Stacks, Memory>
        ensures { IfOk result (λ stacks. held stacks ≡ nothing) }
    {
        Ok(Stacks {
            nodes: Vec::with_capacity(alloc, NODES)?,
            literals: Vec::new(alloc),
            messages: Vec::new(alloc),
            statements: Vec::with_capacity(alloc, 1)?,
            targets: Vec::new(alloc),
            scopes: Vec::new(alloc),
        })
    }

    /// A variable is one more node.
    #[inline]
    pub fn variable(&mut self, name: NameId) -> Result<(), Memory>
        ensures { OnOk result (held self.new ≡ with_node (held self.old) (var name)) }
    {
        put(
            &mut self.nodes,
            Node {
                kind: NodeKind::Var { name },
            },
        )
    }

    /// One more literal.
    #[inline]
    pub fn literal(&mut self, kind: LiteralKind) -> Result<(), Memory>
        ensures { OnOk result (held self.new ≡ with_literal (held self.old) (literal_of kind)) }
    {
        put(&mut self.literals, Literal { kind })
    }

    /// `nil`, `true` or `false` in an array is one more literal.
    #[inline]
    pub fn word(&mut self, name: NameId) -> Result<(), Memory>
        ensures { OnOk result (held self.new ≡ with_literal (held self.old) (word name)) }
    {
        self.literal(LiteralKind::Word { name })
    }

    /// The last literals become an array.
    pub fn array(&mut self, count: usize) -> Result<(), Memory>
        ensures { OnOk result (held self.new ≡ with_array array (held self.old) count) }
    {
        let items = Literals::from_vec(take_last(&mut self.literals, count)?);
        self.literal(LiteralKind::Array { items })
    }

    /// The last literals become a byte array.
    pub fn bytes(&mut self, count: usize) -> Result<(), Memory>
        ensures { OnOk result (held self.new ≡ with_array bytes (held self.old) count) }
    {
        let items = Literals::from_vec(take_last(&mut self.literals, count)?);
        self.literal(LiteralKind::Bytes { items })
    }

    /// The last literal becomes a node.
    #[inline]
    pub fn operand(&mut self) -> Result<(), Memory>
        ensures { OnOk result (held self.new ≡ with_operand (held self.old)) }
    {
        match take_one(&mut self.literals) {
            Some(value) => put(
                &mut self.nodes,
                Node {
                    kind: NodeKind::Literal { value },
                },
            ),
            None => Ok(()),
        }
    }

    /// The last nodes are the arguments of a message to the one before them.
    #[inline]
    pub fn send(&mut self, alloc: Global, selector: NameId, count: usize) -> Result<(), Memory>
        ensures { OnOk result (held self.new ≡ with_send (held self.old) selector count) }
    {
        let arguments = Nodes::from_vec(take_last(&mut self.nodes, count)?);
        if let Some(receiver) = take_one(&mut self.nodes) {
            let receiver = boxed(alloc, receiver)?;
            return put(
                &mut self.nodes,
                Node {
                    kind: NodeKind::Send {
                        receiver,
                        selector,
                        arguments,
                    },
                },
            );
        }
        Ok(())
    }

    /// The last nodes are the arguments of a message of a cascade.
    #[inline]
    pub fn message(&mut self, selector: NameId, count: usize) -> Result<(), Memory>
        ensures { OnOk result (held self.new ≡ with_message (held self.old) selector count) }
    {
        let arguments = Nodes::from_vec(take_last(&mut self.nodes, count)?);
        put(
            &mut self.messages,
            Message {
                selector,
                arguments,
            },
        )
    }

    /// The last messages go to the last node.
    pub fn cascade(&mut self, alloc: Global, count: usize) -> Result<(), Memory>
        ensures { OnOk result (held self.new ≡ with_cascade (held self.old) count) }
    {
        let messages = Messages::from_vec(take_last(&mut self.messages, count)?);
        if let Some(receiver) = take_one(&mut self.nodes) {
            let receiver = boxed(alloc, receiver)?;
            return put(
                &mut self.nodes,
                Node {
                    kind: NodeKind::Cascade { receiver, messages },
                },
            );
        }
        Ok(())
    }

    /// One more variable of an assignment.
    #[inline]
    pub fn target(&mut self, name: NameId) -> Result<(), Memory>
        ensures { OnOk result (held self.new ≡ with_target (held self.old) name) }
    {
        put(&mut self.targets, name)
    }

    /// The last node is the value of the last target.
    #[inline]
    pub fn value(&mut self, alloc: Global) -> Result<(), Memory>
        ensures { OnOk result (held self.new ≡ with_value (held self.old)) }
    {
        let target = take_one(&mut self.targets);
        if let Some(value) = take_one(&mut self.nodes) {
            if let Some(name) = target {
                let value = boxed(alloc, value)?;
                return put(
                    &mut self.nodes,
                    Node {
                        kind: NodeKind::Assign { name, value },
                    },
                );
            }
        }
        Ok(())
    }

    /// One more block is opened.
    pub fn scope(&mut self, parameters: Ids, temporaries: Ids) -> Result<(), Memory>
        ensures { OnOk result (held self.new ≡ with_scope (held self.old) parameters temporaries) }
    {
        put(
            &mut self.scopes,
            Scope {
                parameters,
                temporaries,
            },
        )
    }

    /// The last statements and the last declarations become a block.
    pub fn block(&mut self, alloc: Global, count: usize, tail: Comments) -> Result<(), Memory>
        ensures { OnOk result (held self.new ≡ with_block (held self.old) count tail) }
    {
        let statements = Statements::from_vec(take_last(&mut self.statements, count)?);
        if let Some(scope) = take_one(&mut self.scopes) {
            let Scope {
                parameters,
                temporaries,
            } = scope;
            let body = Sequence {
                temporaries,
                statements,
                tail,
            };
            let body = boxed(alloc, body)?;
            return put(
                &mut self.nodes,
                Node {
                    kind: NodeKind::Block { parameters, body },
                },
            );
        }
        Ok(())
    }

    /// The last nodes become a brace array.
    pub fn brace(&mut self, count: usize) -> Result<(), Memory>
        ensures { OnOk result (held self.new ≡ with_brace (held self.old) count) }
    {
        let items = Nodes::from_vec(take_last(&mut self.nodes, count)?);
        put(
            &mut self.nodes,
            Node {
                kind: NodeKind::Brace { items },
            },
        )
    }

    /// The last node is returned.
    #[inline]
    pub fn returned(&mut self, alloc: Global) -> Result<(), Memory>
        ensures { OnOk result (held self.new ≡ with_return (held self.old)) }
    {
        if let Some(value) = take_one(&mut self.nodes) {
            let value = boxed(alloc, value)?;
            return put(
                &mut self.nodes,
                Node {
                    kind: NodeKind::Return { value },
                },
            );
        }
        Ok(())
    }

    /// The last node becomes a statement.
    #[inline]
    pub fn statement(&mut self, comments: Comments) -> Result<(), Memory>
        ensures { OnOk result (held self.new ≡ with_statement (held self.old) comments) }
    {
        match take_one(&mut self.nodes) {
            Some(node) => put(&mut self.statements, Statement { comments, node }),
            None => Ok(()),
        }
    }
}
