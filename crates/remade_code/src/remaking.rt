// One walk that makes code anew, from below.
ghost use Rattle.std.specs.Prelude.{ℕ, List, ◌≡◌, ◌∷◌, [], ◌++◌, ◌+◌, ◌^◌, ◌<◌, length, OnOk};
ghost use Rattle.tree_model.specs.Tree.{TreeOf, trees_of};
ghost use Rattle.st_tree.specs.View.{tree_of, messages_of, statements_of, sequence_of, method_of};
ghost use Rattle.command_model.specs.Walk.{rebuilt, rebuilt_trees, rebuilt_messages, rebuilt_statements, rebuilt_sequence, rebuilt_method, onward};
ghost use Rattle.remade_code.specs.Below.{below, rebuilt_below};

use rb_base::Memory;
use st_tree::{Message, Method, Node, NodeKind, Sequence, Statement};
use std::alloc::Global;

/// What becomes of the nodes of code.
pub trait Making {
    /// What the node at the end of a path becomes, once the nodes below it are made anew.
    ghost making: { Self → List ℕ → TreeOf ℕ → TreeOf ℕ };

    /// Makes the node to which the steps lead anew; the nodes below it are made anew already. After an error the node may be
    /// anything.
    fn make(&self, alloc: Global, steps: &[usize], node: &mut Node) -> Result<(), Memory>
        ensures { OnOk result (node.new ≡ making self.now steps.now node.old) };
}

/// The nodes right below the node where the walk is.
#[cycle(remake)]
fn remake_below<M: Making>(
    alloc: Global,
    making: &M,
    steps: &mut Vec<usize>,
    kind: &mut NodeKind,
) -> Result<(), Memory>
    ensures steps { OnOk result (steps.new.items ≡ steps.old.items) }
    ensures tree { OnOk result (tree_of kind.new ≡ rebuilt_below (below steps.old.items (M.making making.now)) (tree_of kind.old)) }
{
    match kind {
        NodeKind::Var { .. } | NodeKind::Literal { .. } => Ok(()),
        NodeKind::Send {
            receiver,
            arguments,
            ..
        } => {
            remake_child(alloc, making, steps, 0, receiver)?;
            remake_nodes(alloc, making, steps, 1, arguments.as_mut_slice())
        }
        NodeKind::Cascade { receiver, messages } => {
            remake_child(alloc, making, steps, 0, receiver)?;
            remake_messages(alloc, making, steps, messages.as_mut_slice())
        }
        NodeKind::Assign { value, .. } => remake_child(alloc, making, steps, 0, value),
        NodeKind::Block { body, .. } => remake_sequence(alloc, making, steps, body),
        NodeKind::Brace { items } => remake_nodes(alloc, making, steps, 0, items.as_mut_slice()),
        NodeKind::Return { value } => remake_child(alloc, making, steps, 0, value),
    }
}

/// The node right below the end of the walk to which one step leads.
#[cycle(remake)]
fn remake_child<M: Making>(
    alloc: Global,
    making: &M,
    steps: &mut Vec<usize>,
    step: usize,
    node: &mut Node,
) -> Result<(), Memory>
    ensures steps { OnOk result (steps.new.items ≡ steps.old.items) }
    ensures tree { OnOk result (node.new ≡ rebuilt (onward step (below steps.old.items (M.making making.now))) node.old) }
{
    steps.push(step)?;
    remake_below(alloc, making, steps, &mut node.kind)?;
    making.make(alloc, steps.as_slice(), node)?;
    let _ = steps.pop();
    Ok(())
}

/// The nodes to which the steps from a number on lead.
#[cycle(remake)]
#[tactic(auto, using(st_scope::proofs::Weights::weight_lemmas))]
fn remake_nodes<M: Making>(
    alloc: Global,
    making: &M,
    steps: &mut Vec<usize>,
    first: usize,
    nodes: &mut [Node],
) -> Result<(), Memory>
    requires { first + length nodes.old < 2 ^ 64 }
    ensures steps { OnOk result (steps.new.items ≡ steps.old.items) }
    ensures trees { OnOk result (trees_of nodes.new ≡ rebuilt_trees (below steps.old.items (M.making making.now)) first (trees_of nodes.old)) }
{
    let mut step = first;
    for node in nodes.iter_mut() {
        remake_child(alloc, making, steps, step, node)?;
        step += 1;
    }
    Ok(())
}

/// The messages of a cascade.
#[cycle(remake)]
#[tactic(auto, using(st_scope::proofs::Weights::weight_lemmas))]
fn remake_messages<M: Making>(
    alloc: Global,
    making: &M,
    steps: &mut Vec<usize>,
    messages: &mut [Message],
) -> Result<(), Memory>
    ensures steps { OnOk result (steps.new.items ≡ steps.old.items) }
    ensures messages { OnOk result (messages_of messages.new ≡ rebuilt_messages (below steps.old.items (M.making making.now)) 1 (messages_of messages.old)) }
{
    let mut step = 1usize;
    for message in messages.iter_mut() {
        let next = step.checked_add(message.arguments.len()).ok_or(Memory)?;
        remake_nodes(alloc, making, steps, step, message.arguments.as_mut_slice())?;
        step = next;
    }
    Ok(())
}

/// A sequence.
#[cycle(remake)]
#[tactic(auto, using(st_scope::proofs::Weights::weight_lemmas))]
fn remake_sequence<M: Making>(
    alloc: Global,
    making: &M,
    steps: &mut Vec<usize>,
    body: &mut Sequence,
) -> Result<(), Memory>
    ensures steps { OnOk result (steps.new.items ≡ steps.old.items) }
    ensures body { OnOk result (sequence_of body.new ≡ rebuilt_sequence (below steps.old.items (M.making making.now)) (sequence_of body.old)) }
{
    let mut step = 0;
    for statement in body.statements.as_mut_slice().iter_mut() {
        remake_child(alloc, making, steps, step, &mut statement.node)?;
        step += 1;
    }
    Ok(())
}

/// Makes each node of a method anew. After an error the method may be anything.
pub fn remake_method<M: Making>(
    alloc: Global,
    making: &M,
    method: &mut Method,
) -> Result<(), Memory>
    ensures { OnOk result (method_of method.new ≡ rebuilt_method (M.making making.now) (method_of method.old)) }
{
    remake_sequence(alloc, making, &mut Vec::new(alloc), &mut method.body)
}

/// Makes each node of a do-it anew. After an error the do-it may be anything.
pub fn remake_doit<M: Making>(alloc: Global, making: &M, body: &mut Sequence) -> Result<(), Memory>
    ensures { OnOk result (sequence_of body.new ≡ rebuilt_sequence (M.making making.now) (sequence_of body.old)) }
{
    remake_sequence(alloc, making, &mut Vec::new(alloc), body)
}
