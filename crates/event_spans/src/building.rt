// The nodes in preorder, found by reading the events from the last to the first.
ghost use Rattle.std.specs.Prelude.{◌≡◌, IfOk, [], reverse};
ghost use Rattle.event_spans.specs.Building.{heading_of, close, begun, widened, step, back, state};

use crate::place::Place;
use parse_events::Event;
use rb_base::Memory;
use std::alloc::Global;
use std::collections::VecDeque;

/// A node whose event is read.
#[derive(Clone, Copy)]
struct Heading {
    from: u32,
    to: u32,
    block: bool,
    /// How many nodes stand right below it besides one; `None` where there is none at all.
    more: Option<u32>,
}

/// A node of which not all nodes below it are read.
#[derive(Clone, Copy)]
struct Open {
    from: usize,
    to: usize,
    block: bool,
    /// How many of the nodes right below it are still to be read, besides one.
    more: usize,
    /// How many nodes stand behind it and all below it.
    behind: usize,
}

/// The node whose event this is.
fn heading_of(event: &Event) -> Option<Heading>
    ensures { result ≡ heading_of event.now }
{
    let (from, to, block, more) = match event {
        Event::Literal { from, to } | Event::Var { from, to, .. } => (*from, *to, false, None),
        Event::Send {
            from,
            to,
            arguments,
            ..
        } => (*from, *to, false, Some(*arguments)),
        Event::Cascade { from, to, .. } | Event::Assign { from, to } | Event::Return { from, to } =>
            (*from, *to, false, Some(0)),
        Event::Block {
            from,
            to,
            statements,
            ..
        } => (*from, *to, true, statements.checked_sub(1)),
        Event::Brace { from, to, items } => (*from, *to, false, items.checked_sub(1)),
        _ => return None,
    };
    Some(Heading {
        from,
        to,
        block,
        more,
    })
}

/// Goes on behind a node that is read whole: each open node that wanted but this one is read whole too.
fn close(waiting: &mut VecDeque<Open>, places: &mut Vec<Place>) -> Result<(), Memory>
    ensures { IfOk result (λ _. close waiting.old.items (reverse places.old.items) ≡ state waiting.new.items (reverse places.new.items)) }
{
    'nodes: while let Some(top) = waiting.pop_front() {
        if top.more > 0 {
            waiting.push_front(Open {
                more: top.more - 1,
                ..top
            })?;
            return Ok(());
        }
        places.push(Place {
            from: top.from,
            to: top.to,
            depth: waiting.len(),
            below: places.len().saturating_sub(top.behind),
            block: top.block,
        })?;
    }
    Ok(())
}

/// Reads the event of a node.
fn begin(
    waiting: &mut VecDeque<Open>,
    places: &mut Vec<Place>,
    heading: Heading,
) -> Result<(), Memory>
    ensures { IfOk result (λ _. begun heading waiting.old.items (reverse places.old.items) ≡ state waiting.new.items (reverse places.new.items)) }
{
    if let Some(more) = heading.more {
        waiting.push_front(Open {
            from: heading.from as usize,
            to: heading.to as usize,
            block: heading.block,
            more: more as usize,
            behind: places.len(),
        })?;
        return Ok(());
    }
    places.push(Place {
        from: heading.from as usize,
        to: heading.to as usize,
        depth: waiting.len(),
        below: 0,
        block: heading.block,
    })?;
    close(waiting, places)
}

/// Reads the event of a cascade's message: its arguments are nodes right below the cascade.
fn widen(waiting: &mut VecDeque<Open>, arguments: usize) -> Result<(), Memory>
    ensures { IfOk result (λ _. waiting.new.items ≡ widened arguments waiting.old.items) }
{
    if let Some(top) = waiting.pop_front() {
        let more = top.more.checked_add(arguments).ok_or(Memory)?;
        waiting.push_front(Open { more, ..top })?;
    }
    Ok(())
}

/// Reads an event behind which all are read.
fn read_back(
    waiting: &mut VecDeque<Open>,
    places: &mut Vec<Place>,
    event: &Event,
) -> Result<(), Memory>
    ensures { IfOk result (λ _. step event.now (state waiting.old.items (reverse places.old.items)) ≡ state waiting.new.items (reverse places.new.items)) }
{
    if let Event::Message { arguments, .. } = event {
        return widen(waiting, *arguments as usize);
    }
    match heading_of(event) {
        Some(heading) => begin(waiting, places, heading),
        None => Ok(()),
    }
}

/// The nodes of all events in preorder.
pub(crate) fn preorder(alloc: Global, events: &[Event]) -> Result<Vec<Place>, Memory>
    ensures { IfOk result (λ places. places.items ≡ (back events.now (state [] [])).places) }
{
    let mut waiting = VecDeque::new(alloc);
    let mut places = Vec::new(alloc);
    let mut rest = events;
    'events: while let Some((last, before)) = rest.split_last() {
        read_back(&mut waiting, &mut places, last)?;
        rest = before;
    }
    places.as_mut_slice().reverse();
    Ok(places)
}
