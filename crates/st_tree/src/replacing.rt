// A part of a tree replaced in place.
ghost use Rattle.std.specs.Prelude.{◌≡◌, ◌<◌, ◌∷◌, length, IfNone, IfSome, None, Some, IfOk, IfErr, OnOk, OnErr};
ghost use Rattle.tree_model.specs.Tree.{trees_of};
ghost use Rattle.tree_model.specs.Path.{nth, statement_trees, all_arguments, part_at, part_among, part_in, replaced, statements_replaced, replaced_in, method_replaced};
ghost use Rattle.st_tree.specs.View.{messages_of, statements_of, sequence_of, method_of};
ghost use Rattle.st_tree.specs.Replaced.{trees_replaced, messages_replaced, IsPlace};

use crate::path::Path;
use crate::tree::{Messages, Method, Node, NodeKind, Nodes, Sequence, Statements};
use std::mem;

/// The path leads to no node.
#[derive(Drop)]
pub struct BadPath {
    /// The part that was to be put there.
    pub part: Box<Node>,
}

impl Node {
    /// Puts the part where the path leads, and answers what was there.
    #[cycle(replace)]
    pub(crate) fn replace_at(
        &mut self,
        path: &[usize],
        part: Box<Node>,
    ) -> Result<Box<Node>, BadPath>
        ensures old { IfOk result (λ old. part_at self.old path.now ≡ Some old.value) }
        ensures after { OnOk result (self.new ≡ replaced self.old path.now part.value) }
        ensures back { IfErr result (λ e. e.part.value ≡ part.value) }
        ensures nowhere { OnErr result (part_at self.old path.now ≡ None) }
        ensures unchanged { OnErr result (self.new ≡ self.old) }
    {
        let Some((step, rest)) = path.split_first() else {
            let mut part = part;
            mem::swap(self, &mut *part);
            return Ok(part);
        };
        match &mut self.kind {
            NodeKind::Var { .. } => return Err(BadPath { part }),
            NodeKind::Literal { .. } => return Err(BadPath { part }),
            NodeKind::Send {
                receiver,
                arguments,
                ..
            } => {
                if *step == 0 {
                    return receiver.replace_at(rest, part);
                }
                return arguments.replace_at(*step - 1, rest, part);
            }
            NodeKind::Cascade { receiver, messages } => {
                if *step == 0 {
                    return receiver.replace_at(rest, part);
                }
                return messages.replace_at(*step - 1, rest, part);
            }
            NodeKind::Assign { value, .. } => {
                if *step == 0 {
                    return value.replace_at(rest, part);
                }
                return Err(BadPath { part });
            }
            NodeKind::Return { value } => {
                if *step == 0 {
                    return value.replace_at(rest, part);
                }
                return Err(BadPath { part });
            }
            NodeKind::Block { body, .. } => return body.statements.replace_at(*step, rest, part),
            NodeKind::Brace { items } => return items.replace_at(*step, rest, part),
        }
    }
}

impl Nodes {
    /// The same, from the node of a number on.
    #[cycle(replace)]
    fn replace_at(
        &mut self,
        at: usize,
        path: &[usize],
        part: Box<Node>,
    ) -> Result<Box<Node>, BadPath>
        ensures old { IfOk result (λ old. part_among (trees_of self.old) (at ∷ path.now) ≡ Some old.value) }
        ensures after { OnOk result (trees_of self.new ≡ trees_replaced (trees_of self.old) at path.now part.value) }
        ensures back { IfErr result (λ e. e.part.value ≡ part.value) }
        ensures nowhere { OnErr result (part_among (trees_of self.old) (at ∷ path.now) ≡ None) }
        ensures unchanged { OnErr result (self.new ≡ self.old) }
    {
        if at < self.items.len() {
            self.items[at].replace_at(path, part)
        } else {
            Err(BadPath { part })
        }
    }
}

impl Messages {
    /// The message that has an argument, and which of its arguments it is.
    fn place(&self, at: usize) -> Option<(usize, usize)>
        ensures none { IfNone result (nth (all_arguments (messages_of self.now)) at ≡ None) }
        ensures some { IfSome result (λ p. IsPlace self.now at p.0 p.1) }
        ensures within { IfSome result (λ p. p.0 < length self.now) }
    {
        let mut left = at;
        for (i, message) in self.items.iter().enumerate() {
            let count = message.arguments.items.len();
            if left < count {
                return Some((i, left));
            }
            left -= count;
        }
        None
    }

    /// The same, from the argument of a number on, counted through all messages.
    #[cycle(replace)]
    fn replace_at(
        &mut self,
        at: usize,
        path: &[usize],
        part: Box<Node>,
    ) -> Result<Box<Node>, BadPath>
        ensures old { IfOk result (λ old.
            part_among (all_arguments (messages_of self.old)) (at ∷ path.now) ≡ Some old.value) }
        ensures after { OnOk result
            (messages_of self.new ≡ messages_replaced (messages_of self.old) at path.now part.value) }
        ensures back { IfErr result (λ e. e.part.value ≡ part.value) }
        ensures nowhere { OnErr result (part_among (all_arguments (messages_of self.old)) (at ∷ path.now) ≡ None) }
        ensures unchanged { OnErr result (self.new ≡ self.old) }
    {
        match self.place(at) {
            Some((i, j)) => self.items[i].arguments.replace_at(j, path, part),
            None => Err(BadPath { part }),
        }
    }
}

impl Statements {
    /// The same, from the statement of a number on.
    #[cycle(replace)]
    fn replace_at(
        &mut self,
        at: usize,
        path: &[usize],
        part: Box<Node>,
    ) -> Result<Box<Node>, BadPath>
        ensures old { IfOk result (λ old.
            part_among (statement_trees (statements_of self.old)) (at ∷ path.now) ≡ Some old.value) }
        ensures after { OnOk result
            (statements_of self.new ≡ statements_replaced (statements_of self.old) (at ∷ path.now) part.value) }
        ensures back { IfErr result (λ e. e.part.value ≡ part.value) }
        ensures nowhere { OnErr result
            (part_among (statement_trees (statements_of self.old)) (at ∷ path.now) ≡ None) }
        ensures unchanged { OnErr result (self.new ≡ self.old) }
    {
        if at < self.items.len() {
            self.items[at].node.replace_at(path, part)
        } else {
            Err(BadPath { part })
        }
    }
}

/// Puts the part where the path leads in the method, and answers what was there. Everything else stays. The error
/// comes exactly where the path leads to no node, hands the part back and changes nothing.
pub fn replace_at(method: &mut Method, path: &Path, part: Box<Node>) -> Result<Box<Node>, BadPath>
    ensures old { IfOk result (λ old. part_in (method_of method.old).body path.now ≡ Some old.value) }
    ensures after { OnOk result
        (method_of method.new ≡ method_replaced (method_of method.old) path.now part.value) }
    ensures back { IfErr result (λ e. e.part.value ≡ part.value) }
    ensures nowhere { OnErr result (part_in (method_of method.old).body path.now ≡ None) }
    ensures unchanged { OnErr result (method.new ≡ method.old) }
{
    replace_at_doit(&mut method.body, path, part)
}

/// Puts the part where the path leads in the do-it, and answers what was there. Everything else stays. The error
/// comes exactly where the path leads to no node, hands the part back and changes nothing.
pub fn replace_at_doit(
    body: &mut Sequence,
    path: &Path,
    part: Box<Node>,
) -> Result<Box<Node>, BadPath>
    ensures old { IfOk result (λ old. part_in (sequence_of body.old) path.now ≡ Some old.value) }
    ensures after { OnOk result (sequence_of body.new ≡ replaced_in (sequence_of body.old) path.now part.value) }
    ensures back { IfErr result (λ e. e.part.value ≡ part.value) }
    ensures nowhere { OnErr result (part_in (sequence_of body.old) path.now ≡ None) }
    ensures unchanged { OnErr result (body.new ≡ body.old) }
{
    let Some((step, rest)) = path.as_slice().split_first() else {
        return Err(BadPath { part });
    };
    body.statements.replace_at(*step, rest, part)
}
