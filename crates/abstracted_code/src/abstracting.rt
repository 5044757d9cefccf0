// One method or do-it in which the variable is read and assigned by messages.
ghost use Rattle.std.specs.Prelude.{◌≡◌, ◌&&◌, IfOk};
ghost use Rattle.std.specs.List.{list_any};
ghost use Rattle.tree_model.specs.Tree.{var, send, trees_of};
ghost use Rattle.tree_model.specs.Nodes.{nodes};
ghost use Rattle.st_tree.specs.View.{tree_of, sequence_of};
ghost use Rattle.placed_nodes.specs.Placing.{placed};
ghost use Rattle.abstracted_code.specs.Free as model;

use crate::abstraction::Abstraction;
use placed_nodes::{PlacedNode, placed_nodes};
use rb_base::{Memory, NameId, Names};
use remade_code::Making;
use scope_model::Local;
use st_scope::{local_at, local_at_doit};
use st_tree::{Method, Node, NodeKind, Nodes, Path, Sequence};
use std::alloc::Global;
use std::mem::replace;

/// A method or a do-it.
#[derive(Drop)]
pub(crate) enum Code<'a> {
    Method(&'a Method),
    DoIt(&'a Sequence),
}

/// The variable in one method or do-it, where it is meant outside all blocks: so it is wherever no scope declares its name.
#[derive(Drop)]
pub(crate) struct Abstracting<'a> {
    pub abstraction: Abstraction,
    pub names: &'a Names,
    pub code: Code<'a>,
}

impl Abstracting<'_> {
    /// What the scopes say of a name at the end of a path.
    fn local(&self, path: &Path, name: NameId) -> Local
        ensures { result ≡ model.local_of self.now.names.now self.now.code path.now name }
    {
        match &self.code {
            Code::Method(method) => local_at(*method, path, name, self.names),
            Code::DoIt(body) => local_at_doit(*body, path, name, self.names),
        }
    }

    /// Whether a name at the end of a path is the variable's, and no scope declares it.
    fn is_free(&self, path: &Path, name: NameId) -> bool
        ensures { result ≡ model.is_free self.now path.now name }
    {
        if self.abstraction.variable != name {
            return false;
        }
        match self.local(path, name) {
            Local::Argument { .. } | Local::Temporary { .. } => false,
            Local::NotLocal => true,
        }
    }

    /// Whether the node reads or assigns such a name.
    fn is_use(&self, placed: &PlacedNode<'_>) -> bool
        ensures { result ≡ model.is_use self.now (placed.now.path, placed.now.node.now) }
    {
        let node = placed.node;
        match &node.kind {
            NodeKind::Var { name } | NodeKind::Assign { name, .. } => self.is_free(
                &placed.path,
                *name,
            ),
            _ => false,
        }
    }

    /// Whether one of the nodes does.
    fn is_used_in(&self, found: &[PlacedNode<'_>]) -> bool
        ensures { result ≡ list_any (model.is_use self.now) (placed found.now) }
    {
        for node in found {
            if self.is_use(node) {
                return true;
            }
        }
        false
    }

    /// Whether a node of the body does.
    pub(crate) fn is_used(&self, alloc: Global, body: &Sequence) -> Result<bool, Memory>
        ensures { IfOk result (λ is. is ≡ list_any (model.is_use self.now) (nodes (sequence_of body.now))) }
    {
        let found = placed_nodes(alloc, body)?;
        Ok(self.is_used_in(found.as_slice()))
    }

    /// A message to `self`.
    fn message(&self, alloc: Global, selector: NameId, arguments: Nodes) -> Result<NodeKind, Memory>
        ensures { IfOk result (λ kind. tree_of kind ≡ send (var self.now.abstraction.self_name) selector (trees_of arguments)) }
    {
        let kind = NodeKind::Var {
            name: self.abstraction.self_name,
        };
        Ok(NodeKind::Send {
            receiver: Box::new(alloc, Node { kind })?,
            selector,
            arguments,
        })
    }

    /// What a node at the end of the steps becomes.
    fn kind_after(&self, alloc: Global, steps: &[usize], kind: NodeKind) -> Result<NodeKind, Memory>
        ensures { IfOk result (λ after. tree_of after ≡ model.made_free self.now steps.now (tree_of kind)) }
    {
        let path = Path::from_vec(Vec::from_slice(alloc, steps)?);
        match kind {
            NodeKind::Var { name } => {
                if !self.is_free(&path, name) {
                    return Ok(NodeKind::Var { name });
                }
                self.message(alloc, self.abstraction.variable, Nodes::new(alloc))
            }
            NodeKind::Assign { name, value } => {
                if !self.is_free(&path, name) {
                    return Ok(NodeKind::Assign { name, value });
                }
                let mut arguments = Nodes::new(alloc);
                arguments.push(Box::into_inner(value))?;
                self.message(alloc, self.abstraction.setter, arguments)
            }
            other => Ok(other),
        }
    }
}

impl Making for Abstracting<'_> {
    ghost use Rattle.abstracted_code.specs.Free.{made_free};

    ghost making = { made_free };

    fn make(&self, alloc: Global, steps: &[usize], node: &mut Node) -> Result<(), Memory> {
        let name = self.abstraction.self_name;
        let old = replace(&mut node.kind, NodeKind::Var { name });
        node.kind = self.kind_after(alloc, steps, old)?;
        Ok(())
    }
}
