// What the metavariables of a pattern are bound to in a match.
ghost use Rattle.std.specs.Prelude.{◌≡◌, ◌+◌, ◌<◌, ◌&&◌, [], IfOk, OnOk, length, map, option_map, nat_eq};
ghost use Rattle.std.specs.List.{list_any};
ghost use Rattle.pattern_model.specs.Bindings.{same_meta};
ghost use Rattle.pattern_model.specs.MatchTree.{bindings_of, match_tree};
ghost use Rattle.patterns.specs.View.{meta_of};
ghost use Rattle.pattern_match.specs.Words.{number_words};
ghost use Rattle.pattern_match.specs.Gathering.{bound_from, place_of};
ghost use Rattle.pattern_match.specs.Bound.{bound_of, held_of, with_others};

use crate::agreeing::{first_place, same_meta};
use crate::matching::match_places;
use crate::standing::{Place, Standing};
use patterns::{Meta, Pattern};
use rb_base::{Memory, NameId, Names, Text};
use st_tree::{Message, Node, Nodes, Statement, Statements};
use std::alloc::Global;

/// What a metavariable is bound to.
#[derive(Drop)]
pub enum Bound {
    /// A node.
    Part(Box<Node>),
    /// Statements in order.
    Run(Statements),
    /// A selector.
    Selector(NameId),
    /// A keyword, with its colon.
    Keyword(Text),
    /// A message with its arguments.
    Whole(Message),
}

/// A metavariable and what stands for it.
#[derive(Drop)]
pub struct Held<'n> {
    /// The metavariable, doubled where it is doubled at some place.
    pub meta: Meta,
    pub bound: Standing<'n>,
}

/// A copy of nodes.
fn copied_nodes(alloc: Global, nodes: &[Node]) -> Result<Nodes, Memory>
    ensures { IfOk result (λ copied. copied ≡ nodes.now) }
{
    let mut items = Vec::new(alloc);
    for node in nodes {
        items.push(node.try_copy(alloc)?)?;
    }
    Ok(Nodes::from_vec(items))
}

/// A copy of statements, with their comments.
fn copied_run(alloc: Global, run: &[Statement]) -> Result<Statements, Memory>
    ensures { IfOk result (λ copied. copied ≡ run.now) }
{
    let mut items = Vec::new(alloc);
    for statement in run {
        let comments = statement.comments.try_copy(alloc)?;
        let node = statement.node.try_copy(alloc)?;
        items.push(Statement { comments, node })?;
    }
    Ok(Statements::from_vec(items))
}

/// A copy of what stands for a metavariable.
pub fn copied(alloc: Global, standing: &Standing<'_>) -> Result<Bound, Memory>
    ensures { IfOk result (λ bound. bound_of bound ≡ bound_from standing.now) }
{
    match standing {
        Standing::Part(node) => Ok(Bound::Part(Box::new(alloc, node.try_copy(alloc)?)?)),
        Standing::Run(run) => Ok(Bound::Run(copied_run(alloc, run)?)),
        Standing::Selector(selector) => Ok(Bound::Selector(*selector)),
        Standing::Keyword(keyword) => Ok(Bound::Keyword(keyword.try_copy(alloc)?)),
        Standing::Message(selector, arguments) => {
            let arguments = copied_nodes(alloc, arguments)?;
            Ok(Bound::Whole(Message {
                selector: *selector,
                arguments,
            }))
        }
    }
}

/// The same part, which is not copied.
fn by_reference<'n>(alloc: Global, standing: &Standing<'n>) -> Result<Standing<'n>, Memory>
    ensures { IfOk result (λ same. bound_from same ≡ bound_from standing.now) }
{
    match standing {
        Standing::Part(node) => Ok(Standing::Part(*node)),
        Standing::Run(run) => Ok(Standing::Run(*run)),
        Standing::Selector(selector) => Ok(Standing::Selector(*selector)),
        Standing::Keyword(keyword) => Ok(Standing::Keyword(keyword.try_copy(alloc)?)),
        Standing::Message(selector, arguments) => Ok(Standing::Message(*selector, *arguments)),
    }
}

/// Whether the metavariable is doubled at some place.
fn is_doubled(places: &[Place<'_>], meta: Meta) -> bool
    ensures { result ≡ list_any (λ x. same_meta nat_eq (meta_of meta) (meta_of x.meta) && x.meta.doubled) places.now }
{
    places
        .iter()
        .any(|place| same_meta(meta, place.meta) && place.meta.doubled)
}

/// Binds the metavariable of a place to what stands there, where no earlier place has it.
fn bind<'n>(
    alloc: Global,
    places: &[Place<'n>],
    at: usize,
    bindings: &mut Vec<Held<'n>>,
) -> Result<(), Memory>
    requires { at < length places.now }
    ensures { OnOk result (with_others (map place_of places.now) (at + 1) (map held_of bindings.new.items) ≡ with_others (map place_of places.now) at (map held_of bindings.old.items)) }
{
    let place = &places[at];
    let first = first_place(places, place.meta);
    let earlier = first < at;
    if earlier {
        return Ok(());
    }
    let doubled = is_doubled(places, place.meta);
    let meta = Meta {
        kind: place.meta.kind,
        name: place.meta.name,
        doubled,
    };
    let bound = by_reference(alloc, &place.bound)?;
    bindings.push(Held { meta, bound })?;
    Ok(())
}

/// Each metavariable bound to what stands at its first place.
fn bindings_of<'n>(alloc: Global, places: &[Place<'n>]) -> Result<Vec<Held<'n>>, Memory>
    ensures { IfOk result (λ bindings. map held_of bindings.items ≡ bindings_of (number_words []) (map place_of places.now)) }
{
    let mut bindings = Vec::new(alloc);
    for i in 0..places.len() {
        bind(alloc, places, i, &mut bindings)?;
    }
    Ok(bindings)
}

/// The bindings with which a pattern is the node, comments aside; None exactly where there are none.
pub fn match_at<'n>(
    alloc: Global,
    names: &Names,
    pattern: &Pattern,
    node: &'n Node,
) -> Result<Option<Vec<Held<'n>>>, Memory>
    ensures { IfOk result (λ found. option_map (λ bs. map held_of bs.items) found ≡ match_tree (number_words names.now) pattern.now node.now) }
{
    let found = match_places(alloc, names, pattern, node)?;
    match found {
        None => Ok(None),
        Some(places) => {
            let bindings = bindings_of(alloc, &places)?;
            Ok(Some(bindings))
        }
    }
}
