// Where a pattern matches in code.
ghost use Rattle.std.specs.Prelude.{◌≡◌, ◌<◌, ◌++◌, ◌∷◌, [], ℕ, List, IfOk, OnOk, OnErr, map};
ghost use Rattle.tree_model.specs.Tree.{trees_of};
ghost use Rattle.tree_model.specs.Path.{all_arguments, statement_trees};
ghost use Rattle.tree_model.specs.Measure.{height};
ghost use Rattle.st_tree.specs.View.{messages_of, statements_of, sequence_of};
ghost use Rattle.pattern_model.specs.MatchTree.{PlaceOf, numbered};
ghost use Rattle.pattern_model.specs.Search.{placed_children, searched_in, found_among, found, all_matches};
ghost use Rattle.pattern_match.specs.Words.{number_words};
ghost use Rattle.pattern_match.specs.Gathering.{parts_from, place_of, kept};
ghost use Rattle.pattern_match.specs.Parts.{placed_parts, parts_height, searched_height, onward};

use crate::matching::match_places;
use crate::standing::{Part, Place};
use crate::walk::{next, put_part};
use patterns::{Pattern, PatternKind};
use rb_base::{Memory, Names};
use st_tree::{Message, Node, NodeKind, Path, Sequence, Statement};
use std::alloc::Global;

/// Puts nodes at the end of the parts, to which the steps from a number on lead.
fn put_nodes<'n>(
    alloc: Global,
    first: usize,
    nodes: &'n [Node],
    parts: &mut Vec<Part<'n>>,
) -> Result<(), Memory>
    ensures { OnOk result (parts_from parts.new.items ≡ parts_from parts.old.items ++ numbered first (trees_of nodes.now)) }
{
    let mut step = first;
    for node in nodes {
        put_part(alloc, &[], step, node, parts)?;
        step = next(step)?;
    }
    Ok(())
}

/// Puts the arguments of messages at the end of the parts.
fn put_arguments<'n>(
    alloc: Global,
    messages: &'n [Message],
    parts: &mut Vec<Part<'n>>,
) -> Result<(), Memory>
    ensures { OnOk result (parts_from parts.new.items ≡ parts_from parts.old.items ++ numbered 1 (all_arguments (messages_of messages.now))) }
{
    let mut step = 1usize;
    for message in messages {
        let later = step.checked_add(message.arguments.len()).ok_or(Memory)?;
        put_nodes(alloc, step, message.arguments.as_slice(), parts)?;
        step = later;
    }
    Ok(())
}

/// Puts the nodes of statements at the end of the parts.
fn put_statements<'n>(
    alloc: Global,
    statements: &'n [Statement],
    parts: &mut Vec<Part<'n>>,
) -> Result<(), Memory>
    ensures { OnOk result (parts_from parts.new.items ≡ parts_from parts.old.items ++ numbered 0 (statement_trees (statements_of statements.now))) }
{
    let mut step = 0;
    for statement in statements {
        put_part(alloc, &[], step, &statement.node, parts)?;
        step = next(step)?;
    }
    Ok(())
}

/// The nodes right below a node, with their steps.
fn nodes_below<'n>(alloc: Global, node: &'n Node) -> Result<Vec<Part<'n>>, Memory>
    ensures { IfOk result (λ parts. parts_from parts.items ≡ placed_children node.now) }
{
    let mut parts = Vec::new(alloc);
    match &node.kind {
        NodeKind::Var { .. } | NodeKind::Literal { .. } => {}
        NodeKind::Send {
            receiver,
            arguments,
            ..
        } => {
            put_part(alloc, &[], 0, receiver, &mut parts)?;
            put_nodes(alloc, 1, arguments.as_slice(), &mut parts)?;
        }
        NodeKind::Cascade { receiver, messages } => {
            put_part(alloc, &[], 0, receiver, &mut parts)?;
            put_arguments(alloc, messages.as_slice(), &mut parts)?;
        }
        NodeKind::Assign { value, .. } | NodeKind::Return { value } => {
            put_part(alloc, &[], 0, value, &mut parts)?;
        }
        NodeKind::Block { body, .. } => {
            put_statements(alloc, body.statements.as_slice(), &mut parts)?;
        }
        NodeKind::Brace { items } => put_nodes(alloc, 0, items.as_slice(), &mut parts)?,
    }
    Ok(parts)
}

/// The same, all of which are lower than the node.
fn parts_below<'n>(alloc: Global, node: &'n Node) -> Result<Vec<Part<'n>>, Memory>
    ensures parts { IfOk result (λ parts. parts_from parts.items ≡ placed_children node.now) }
    ensures lower { IfOk result (λ parts. parts_height parts.items < height node.now) }
{
    nodes_below(alloc, node)
}

/// The paths of the matches in the node to which a path leads, in preorder, go to the end of the others.
#[cycle(finding)]
fn search_node(
    alloc: Global,
    names: &Names,
    pattern: &Pattern,
    node: &Node,
    path: &[usize],
    out: &mut Vec<Path>,
) -> Result<(), Memory>
    ensures { OnOk result (out.new.items ≡ out.old.items ++ onward path.now (found (number_words names.now) pattern.now node.now)) }
{
    match match_places(alloc, names, pattern, node)? {
        None => search_below(alloc, names, pattern, node, path, out),
        Some(places) => {
            let whole = Path::from_vec(Vec::from_slice(alloc, path)?);
            out.push(whole)?;
            search_match(alloc, names, pattern, node, &places, path, out)
        }
    }
}

/// The same for the nodes right below it.
#[cycle(finding)]
fn search_below(
    alloc: Global,
    names: &Names,
    pattern: &Pattern,
    node: &Node,
    path: &[usize],
    out: &mut Vec<Path>,
) -> Result<(), Memory>
    ensures { OnOk result (out.new.items ≡ out.old.items ++ onward path.now (found_among (found (number_words names.now) pattern.now) (placed_children node.now))) }
{
    let parts = parts_below(alloc, node)?;
    search_parts(alloc, names, pattern, &parts, path, out)
}

/// The same for what is searched in a match, by its places.
#[cycle(finding)]
fn search_match(
    alloc: Global,
    names: &Names,
    pattern: &Pattern,
    node: &Node,
    places: &[Place<'_>],
    path: &[usize],
    out: &mut Vec<Path>,
) -> Result<(), Memory>
    requires { searched_height pattern.now places.now < height node.now }
    ensures { OnOk result ((xs : List (PlaceOf ℕ)) → map place_of places.now ≡ map (kept []) xs →
        out.new.items ≡ out.old.items ++ onward path.now (found_among (found (number_words names.now) pattern.now) (searched_in pattern.now node.now xs))) }
{
    match &pattern.kind {
        PatternKind::Meta { meta } => {
            if meta.doubled {
                search_below(alloc, names, pattern, node, path, out)
            } else {
                Ok(())
            }
        }
        _ => search_places(alloc, names, pattern, places, path, out),
    }
}

/// The same for the parts of places.
#[cycle(finding)]
#[tactic(auto, using(crate::proofs::Searched::part_rules))]
fn search_places(
    alloc: Global,
    names: &Names,
    pattern: &Pattern,
    places: &[Place<'_>],
    path: &[usize],
    out: &mut Vec<Path>,
) -> Result<(), Memory>
    ensures { OnOk result (out.new.items ≡ out.old.items ++ onward path.now (found_among (found (number_words names.now) pattern.now) (placed_parts places.now))) }
{
    for place in places {
        search_parts(alloc, names, pattern, &place.parts, path, out)?;
    }
    Ok(())
}

/// The same for parts.
#[cycle(finding)]
#[tactic(auto, using(crate::proofs::Searched::part_rules))]
fn search_parts(
    alloc: Global,
    names: &Names,
    pattern: &Pattern,
    parts: &[Part<'_>],
    path: &[usize],
    out: &mut Vec<Path>,
) -> Result<(), Memory>
    ensures { OnOk result (out.new.items ≡ out.old.items ++ onward path.now (found_among (found (number_words names.now) pattern.now) (parts_from parts.now))) }
{
    for part in parts {
        let mut whole = Vec::from_slice(alloc, path)?;
        whole.extend_from_slice(&part.path)?;
        search_node(alloc, names, pattern, part.node, &whole, out)?;
    }
    Ok(())
}

/// Appends the paths of the matches in the body of a method or a do-it, in preorder. The error is want of memory; then `out`
/// has the paths that it had.
pub fn all_matches(
    alloc: Global,
    names: &Names,
    pattern: &Pattern,
    body: &Sequence,
    out: &mut Vec<Path>,
) -> Result<(), Memory>
    ensures matches { OnOk result (out.new.items ≡ out.old.items ++ all_matches (number_words names.now) pattern.now (sequence_of body.now)) }
    ensures kept { OnErr result (out.new.items ≡ out.old.items) }
{
    let mut parts = Vec::new(alloc);
    put_statements(alloc, body.statements.as_slice(), &mut parts)?;
    let mut paths = Vec::new(alloc);
    search_parts(alloc, names, pattern, &parts, &[], &mut paths)?;
    out.append(&mut paths)?;
    Ok(())
}
