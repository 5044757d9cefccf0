// Nodes and statements, found from where they stand.
ghost use Rattle.std.specs.Prelude.{◌≡◌, IfOk, [], ◌∷◌, ◌++◌, OnOk, take, Option, None, option_map};
ghost use Rattle.std.specs.Option.{option_or};
ghost use Rattle.st_tree.specs.declared.path.Part.TheVariants as part;
ghost use Rattle.event_spans.specs.declared.runs.Run.{Run};
ghost use Rattle.event_spans.specs.Answers.{part_found};
ghost use Rattle.event_spans.specs.Runs.{roots, run_of};
ghost use Rattle.event_spans.specs.Walk.{next_path, walked, is_at, node_found, run_in_block, run_found, listed};

use crate::descent::within;
use crate::place::Place;
use crate::runs::{Run, run_in};
use rb_base::{Memory, Span};
use st_tree::{Part, Path};
use std::alloc::Global;
use std::marker::Model;

/// A node: the path that leads to it, and where it stands, in bytes from the text's start.
#[derive(Drop)]
pub struct NodeSpan {
    pub path: Path,
    pub span: Span,
}

/// Nodes with their paths and spans. Contracts see a list.
#[derive(Drop)]
pub struct Spans {
    pub(crate) items: Vec<NodeSpan>,
}

impl Model for Spans {
    ghost use Rattle.std.specs.Prelude.{List};
    ghost use Rattle.event_spans.specs.declared.search.NodeSpan.{NodeSpan};

    ghost Value = { List NodeSpan };

    ghost view = { λ a. a.items.items };
}

impl Spans {
    /// The nodes with their paths and spans.
    pub fn as_slice(&self) -> &[NodeSpan]
        ensures { result.now ≡ self.now }
    {
        self.items.as_slice()
    }

    /// The nodes with their paths and spans, which are not copied.
    pub fn into_vec(self) -> Vec<NodeSpan>
        ensures { result.items ≡ self }
    {
        let Spans { items } = self;
        items
    }
}

/// Goes on from the path of a node to that of the next one in preorder, which stands at a depth.
fn follow(steps: &mut Vec<usize>, depth: usize) -> Result<(), Memory>
    ensures { IfOk result (λ _. steps.new.items ≡ next_path depth steps.old.items) }
{
    let next = match steps.get(depth) {
        Some(step) => step.checked_add(1).ok_or(Memory)?,
        None => 0,
    };
    steps.truncate(depth);
    steps.push(next)?;
    Ok(())
}

/// Whether a node stands there.
fn is_at(place: &Place, span: Span) -> bool
    ensures { result ≡ is_at span place.now }
{
    place.from == span.from && place.to == span.to
}

/// The path of the first node with the span.
pub(crate) fn node_found(
    alloc: Global,
    places: &[Place],
    span: Span,
) -> Result<Option<Path>, Memory>
    ensures { IfOk result (λ found. found ≡ node_found span (walked [] places.now)) }
{
    let mut steps = Vec::new(alloc);
    for place in places {
        follow(&mut steps, place.depth)?;
        if is_at(place, span) {
            return Ok(Some(Path::from_vec(steps)));
        }
    }
    Ok(None)
}

/// The statements of a block, the node before `rest`, that begin and end with the span.
fn run_in_block(place: &Place, rest: &[Place], span: Span) -> Result<Option<Run>, Memory>
    ensures { IfOk result (λ found. found ≡ run_in_block span place.now (take place.now.below rest.now)) }
{
    if place.block {
        run_in(within(place, rest), span)
    } else {
        Ok(None)
    }
}

/// The statements of the first block that begin and end with the span.
pub(crate) fn run_found(alloc: Global, places: &[Place], span: Span) -> Result<Option<Part>, Memory>
    ensures { IfOk result (λ found. found ≡ run_found span (walked [] places.now)) }
{
    let mut steps = Vec::new(alloc);
    let mut rest = places;
    'nodes: while let Some((place, more)) = rest.split_first() {
        follow(&mut steps, place.depth)?;
        if let Some(run) = run_in_block(place, more, span)? {
            return Ok(Some(Part::Run {
                path: Path::from_vec(steps),
                first: run.first,
                count: run.count,
            }));
        }
        rest = more;
    }
    Ok(None)
}

/// All nodes with their paths and spans.
pub(crate) fn listed(alloc: Global, places: &[Place]) -> Result<Vec<NodeSpan>, Memory>
    ensures { IfOk result (λ spans. spans.items ≡ listed (walked [] places.now)) }
{
    let mut steps = Vec::new(alloc);
    let mut spans = Vec::new(alloc);
    for place in places {
        follow(&mut steps, place.depth)?;
        spans.push(NodeSpan {
            path: Path::from_vec(Vec::from_slice(alloc, steps.as_slice())?),
            span: Span {
                from: place.from,
                to: place.to,
            },
        })?;
    }
    Ok(spans)
}

/// The part with the span: a node before statements, and the outermost statements before those of blocks.
pub(crate) fn part_found(
    alloc: Global,
    places: &[Place],
    span: Span,
) -> Result<Option<Part>, Memory>
    ensures { IfOk result (λ part. part ≡ part_found span places.now) }
{
    if let Some(path) = node_found(alloc, places, span)? {
        return Ok(Some(Part::Expression { path }));
    }
    if let Some(run) = run_in(places, span)? {
        return Ok(Some(Part::Run {
            path: Path::new(alloc),
            first: run.first,
            count: run.count,
        }));
    }
    run_found(alloc, places, span)
}
