// What messages pass and methods take, where an argument comes or goes.
ghost use Rattle.std.specs.Prelude.{◌≡◌, remove, OnOk};
ghost use Rattle.tree_model.specs.Tree.{trees_of};
ghost use Rattle.command_model.specs.Plain.{literal_node};
ghost use Rattle.st_tree.specs.View.{messages_of, method_of};
ghost use Rattle.parameter_plans.specs.Given.{selector_before, selector_after, passed_after, taken_after, messages_after, node_after, tree_after};

use crate::given::ParameterChange;
use rb_base::{Ids, Memory, NameId};
use remade_code::{Making, remake_method};
use st_tree::{Literal, LiteralKind, Message, Method, Node, NodeKind, Nodes};
use std::alloc::Global;

/// Takes out the item of a number, counted from 0, if there are so many.
fn drop_at<T: Drop>(items: &mut Vec<T>, at: usize)
    ensures { items.new.items ≡ remove items.old.items at }
{
    if at < items.len() {
        items.remove(at);
    }
}

/// The literal as a node; `nil`, `true` and `false` are names.
fn literal_node(value: Literal) -> Node
    ensures { result ≡ literal_node value }
{
    let Literal { kind } = value;
    let kind = match kind {
        LiteralKind::Word { name } => NodeKind::Var { name },
        kind => NodeKind::Literal {
            value: Literal { kind },
        },
    };
    Node { kind }
}

impl ParameterChange<'_> {
    /// The selector that changes.
    pub(crate) fn selector(&self) -> NameId
        ensures { result ≡ selector_before self.now }
    {
        match self {
            ParameterChange::Added(new) => new.selector,
            ParameterChange::Removed { selector, .. } => *selector,
        }
    }

    /// The selector that it becomes.
    fn to(&self) -> NameId
        ensures { result ≡ selector_after self.now }
    {
        match self {
            ParameterChange::Added(new) => new.to,
            ParameterChange::Removed { to, .. } => *to,
        }
    }

    /// Changes what a message passes.
    fn pass(&self, alloc: Global, arguments: &mut Nodes) -> Result<(), Memory>
        ensures { OnOk result (trees_of arguments.new ≡ passed_after self.now (trees_of arguments.old)) }
    {
        match self {
            ParameterChange::Added(new) => {
                arguments.push(literal_node(new.passed.try_copy(alloc)?))?;
            }
            ParameterChange::Removed { argument, .. } => {
                let mut items = std::mem::replace(arguments, Nodes::new(alloc)).into_vec();
                drop_at(&mut items, argument.saturating_sub(1));
                *arguments = Nodes::from_vec(items);
            }
        }
        Ok(())
    }

    /// Changes which arguments a method takes.
    fn take(&self, alloc: Global, arguments: &mut Ids) -> Result<(), Memory>
        ensures { OnOk result (arguments.new ≡ taken_after self.now arguments.old) }
    {
        match self {
            ParameterChange::Added(new) => arguments.push(new.parameter),
            ParameterChange::Removed { argument, .. } => {
                let mut items = std::mem::replace(arguments, Ids::new(alloc)).into_vec();
                drop_at(&mut items, argument.saturating_sub(1));
                *arguments = Ids::from_vec(items);
                Ok(())
            }
        }
    }

    /// Changes the messages of the selector.
    fn pass_all(&self, alloc: Global, messages: &mut [Message]) -> Result<(), Memory>
        ensures { OnOk result (messages_of messages.new ≡ messages_after self.now (messages_of messages.old)) }
    {
        for message in messages.iter_mut() {
            if self.selector() == message.selector {
                message.selector = self.to();
                self.pass(alloc, &mut message.arguments)?;
            }
        }
        Ok(())
    }

    /// Changes each message of the selector in a method, and the method itself where it has the selector.
    pub(crate) fn change_method(&self, alloc: Global, method: &mut Method) -> Result<(), Memory>
        ensures { OnOk result (method_of method.new ≡ tree_after self.now (method_of method.old)) }
    {
        remake_method(alloc, self, method)?;
        if self.selector() == method.selector {
            method.selector = self.to();
            self.take(alloc, &mut method.arguments)?;
        }
        Ok(())
    }
}

impl Making for ParameterChange<'_> {
    ghost making = { λ it path t. node_after it t };

    fn make(&self, alloc: Global, steps: &[usize], node: &mut Node) -> Result<(), Memory> {
        match &mut node.kind {
            NodeKind::Send {
                selector,
                arguments,
                ..
            } => {
                if self.selector() == *selector {
                    *selector = self.to();
                    self.pass(alloc, arguments)?;
                }
            }
            NodeKind::Cascade { messages, .. } => {
                self.pass_all(alloc, messages.as_mut_slice())?;
            }
            _ => {}
        }
        Ok(())
    }
}
