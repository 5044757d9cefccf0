// The names that a method or a do-it mentions, each once.
ghost use Rattle.std.specs.Prelude.{◌≡◌, ◌≤◌, [], ◌∷◌, ◌++◌, length, IfOk, OnOk};
ghost use Rattle.std.specs.List.{flat_map};
ghost use Rattle.tree_model.specs.Tree.{literals_of};
ghost use Rattle.st_tree.specs.View.{messages_of, sequence_of, method_of};
ghost use Rattle.mentions.specs.Mentions.{words_in, words_in_all, selectors_of, own_names, code_names, method_names};
ghost use Rattle.mentions.specs.Listing.{pointed, ListsOnce};

use crate::walk::nodes_of;
use rb_base::{Ids, Memory, NameId};
use st_tree::{Literal, LiteralKind, Message, Method, Node, NodeKind, Sequence};
use std::alloc::Global;

/// Puts the number of a name at the end.
fn put_name(name: NameId, numbers: &mut Vec<usize>) -> Result<(), Memory>
    ensures { OnOk result (numbers.new.items ≡ numbers.old.items ++ name ∷ []) }
{
    numbers.push(name.0)?;
    Ok(())
}

/// Puts the numbers of names at the end.
fn put_names(names: &[NameId], numbers: &mut Vec<usize>) -> Result<(), Memory>
    ensures { OnOk result (numbers.new.items ≡ numbers.old.items ++ names.now) }
{
    for name in names {
        numbers.push(name.0)?;
    }
    Ok(())
}

/// Puts the words in a literal at the end.
#[cycle(words)]
#[tactic(auto, using(crate::proofs::LiteralWeights::weight_literal))]
fn put_words(literal: &Literal, numbers: &mut Vec<usize>) -> Result<(), Memory>
    ensures { OnOk result (numbers.new.items ≡ numbers.old.items ++ words_in literal.now) }
{
    match &literal.kind {
        LiteralKind::Array { items } | LiteralKind::Bytes { items } => {
            put_all_words(items.as_slice(), numbers)
        }
        LiteralKind::Word { name } => put_name(*name, numbers),
        LiteralKind::Number { .. } | LiteralKind::Str { .. } => Ok(()),
        LiteralKind::Symbol { .. } | LiteralKind::Char { .. } => Ok(()),
    }
}

/// The same for literals in order.
#[cycle(words)]
#[tactic(auto, using(crate::proofs::LiteralWeights::weight_literal))]
fn put_all_words(literals: &[Literal], numbers: &mut Vec<usize>) -> Result<(), Memory>
    ensures { OnOk result (numbers.new.items ≡ numbers.old.items ++ words_in_all (literals_of literals.now)) }
{
    for literal in literals {
        put_words(literal, numbers)?;
    }
    Ok(())
}

/// Puts the selectors of messages at the end.
fn put_selectors(messages: &[Message], numbers: &mut Vec<usize>) -> Result<(), Memory>
    ensures { OnOk result (numbers.new.items ≡ numbers.old.items ++ selectors_of (messages_of messages.now)) }
{
    for message in messages {
        numbers.push(message.selector.0)?;
    }
    Ok(())
}

/// Puts the names at the end that stand in the node itself.
fn put_own(node: &Node, numbers: &mut Vec<usize>) -> Result<(), Memory>
    ensures { OnOk result (numbers.new.items ≡ numbers.old.items ++ own_names node.now) }
{
    match &node.kind {
        NodeKind::Var { name } | NodeKind::Assign { name, .. } => put_name(*name, numbers),
        NodeKind::Literal { value } => put_words(value, numbers),
        NodeKind::Send { selector, .. } => put_name(*selector, numbers),
        NodeKind::Cascade { messages, .. } => put_selectors(messages.as_slice(), numbers),
        NodeKind::Block { parameters, body } => {
            put_names(parameters.as_slice(), numbers)?;
            put_names(body.temporaries.as_slice(), numbers)
        }
        NodeKind::Brace { .. } | NodeKind::Return { .. } => Ok(()),
    }
}

/// The same for nodes in order.
fn put_all_own(nodes: &[&Node], numbers: &mut Vec<usize>) -> Result<(), Memory>
    ensures { OnOk result (numbers.new.items ≡ numbers.old.items ++ flat_map own_names (pointed nodes.now)) }
{
    for node in nodes {
        put_own(*node, numbers)?;
    }
    Ok(())
}

/// Puts the names at the end that the body mentions.
fn put_code(alloc: Global, body: &Sequence, numbers: &mut Vec<usize>) -> Result<(), Memory>
    ensures { OnOk result (numbers.new.items ≡ numbers.old.items ++ code_names (sequence_of body.now)) }
{
    put_names(body.temporaries.as_slice(), numbers)?;
    let nodes = nodes_of(alloc, body)?;
    put_all_own(nodes.as_slice(), numbers)
}

/// Leaves each number once, in order.
pub fn leave_once(numbers: &mut Vec<usize>)
    ensures once { ListsOnce numbers.old.items numbers.new.items }
    ensures shorter { length numbers.new.items ≤ length numbers.old.items }
{
    numbers.sort_unstable();
    numbers.dedup();
}

/// The names of these numbers.
fn names_of(alloc: Global, numbers: &[usize]) -> Result<Ids, Memory>
    ensures { IfOk result (λ names. names ≡ numbers.now) }
{
    let mut names = Ids::new(alloc);
    for number in numbers {
        names.push(NameId(*number))?;
    }
    Ok(names)
}

/// The names that the method mentions, each once: its selector, its arguments, and what its code declares, reads,
/// assigns and sends, and the words in its literals.
pub fn method_names(alloc: Global, method: &Method) -> Result<Ids, Memory>
    ensures { IfOk result (λ names. ListsOnce (method_names (method_of method.now)) names) }
{
    let mut numbers = Vec::new(alloc);
    put_name(method.selector, &mut numbers)?;
    put_names(method.arguments.as_slice(), &mut numbers)?;
    put_code(alloc, &method.body, &mut numbers)?;
    leave_once(&mut numbers);
    names_of(alloc, numbers.as_slice())
}

/// The names that the do-it mentions, each once.
pub fn doit_names(alloc: Global, body: &Sequence) -> Result<Ids, Memory>
    ensures { IfOk result (λ names. ListsOnce (code_names (sequence_of body.now)) names) }
{
    let mut numbers = Vec::new(alloc);
    put_code(alloc, body, &mut numbers)?;
    leave_once(&mut numbers);
    names_of(alloc, numbers.as_slice())
}
