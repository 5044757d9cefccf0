// Outermost statements that are too high.
ghost use Rattle.std.specs.Prelude.{◌≡◌, ◌+◌, ◌-◌, ◌≤◌, ◌↔◌, [], ◌∷◌, ◌++◌, Option, IfOk, IsTrue, OnOk, length, take};
ghost use Rattle.grammar_model.specs.Checks.{first_tall};
ghost use Rattle.grammar_model.specs.Spanned.{SpannedStatements};
ghost use Rattle.parse_events.specs.Found.{statements_events};
ghost use Rattle.event_checks.specs.Heights.{greatest, raised, heights_behind, open_behind, tall_at, first_tall_in, left_behind, short_at, all_short};

use parse_events::Event;
use rb_base::Memory;
use std::alloc::Global;

/// The most levels that a statement may have.
const MOST_LEVELS: u8 = 200;

/// The number by which all heights above the most are told.
const TOO_HIGH: u8 = 201;

/// The greatest of the heights, and 0 where there is none.
fn greatest(heights: &[u8]) -> u8
    ensures { result ≡ greatest heights.now }
{
    let mut greatest = 0;
    for height in heights {
        greatest = (*height).max(greatest);
    }
    greatest
}

/// Puts one height in the place of those from an index on: so many more than the greatest of them.
fn raise(heights: &mut Vec<u8>, below: usize, levels: u8) -> Result<(), Memory>
    requires { below ≤ length heights.old.items }
    ensures { OnOk result (heights.new.items ≡ raised below levels heights.old.items) }
{
    let height = greatest(&heights[below..])
        .saturating_add(levels)
        .min(TOO_HIGH);
    heights.truncate(below);
    heights.push(height)?;
    Ok(())
}

/// Puts the height of a part without parts at the end.
fn put_one(heights: &mut Vec<u8>) -> Result<(), Memory>
    ensures { OnOk result (heights.new.items ≡ heights.old.items ++ 1 ∷ []) }
{
    heights.push(1)?;
    Ok(())
}

/// Puts the height of a part without parts in the place of the last ones.
fn flatten(heights: &mut Vec<u8>, count: usize) -> Result<(), Memory>
    ensures { OnOk result (heights.new.items ≡ take (length heights.old.items - count) heights.old.items ++ 1 ∷ []) }
{
    let below = heights.len().saturating_sub(count);
    heights.truncate(below);
    put_one(heights)
}

/// Raises the last heights by one level.
fn raise_last(heights: &mut Vec<u8>, count: usize) -> Result<(), Memory>
    ensures { OnOk result (heights.new.items ≡ raised (length heights.old.items - count) 1 heights.old.items) }
{
    let below = heights.len().saturating_sub(count);
    raise(heights, below, 1)
}

/// Raises the last heights, and the one before them, by one level.
fn raise_with_receiver(heights: &mut Vec<u8>, count: usize) -> Result<(), Memory>
    ensures { OnOk result (heights.new.items ≡ raised (length heights.old.items - count - 1) 1 heights.old.items) }
{
    let below = heights.len().saturating_sub(count).saturating_sub(1);
    raise(heights, below, 1)
}

/// Puts the greatest of the last heights in their place.
fn join_last(heights: &mut Vec<u8>, count: usize) -> Result<(), Memory>
    ensures { OnOk result (heights.new.items ≡ raised (length heights.old.items - count) 0 heights.old.items) }
{
    let below = heights.len().saturating_sub(count);
    raise(heights, below, 0)
}

/// Puts the heights that stand behind an event in the place of those before it.
fn build(heights: &mut Vec<u8>, event: &Event) -> Result<(), Memory>
    ensures { OnOk result (heights.new.items ≡ heights_behind event.now heights.old.items) }
{
    match event {
        Event::Number { .. }
        | Event::Str { .. }
        | Event::Symbol { .. }
        | Event::Char { .. }
        | Event::Word { .. }
        | Event::Var { .. } => put_one(heights),
        Event::Bytes { items } => flatten(heights, *items as usize),
        Event::Array { items } | Event::Brace { items, .. } => raise_last(heights, *items as usize),
        Event::Block { statements, .. } => raise_last(heights, *statements as usize),
        Event::Assign { .. } | Event::Return { .. } => raise_last(heights, 1),
        Event::Send { arguments, .. } => raise_with_receiver(heights, *arguments as usize),
        Event::Cascade { messages, .. } => raise_with_receiver(heights, *messages as usize),
        Event::Message { arguments, .. } => join_last(heights, *arguments as usize),
        Event::Literal { .. }
        | Event::Target { .. }
        | Event::Enter { .. }
        | Event::Statement { .. } => Ok(()),
    }
}

/// How many blocks are open behind an event.
fn open_behind(depth: usize, event: &Event) -> Result<usize, Memory>
    ensures { IfOk result (λ behind. behind ≡ open_behind event.now depth) }
{
    match event {
        Event::Enter { .. } => Ok(depth.checked_add(1).ok_or(Memory)?),
        Event::Block { .. } => Ok(depth.saturating_sub(1)),
        _ => Ok(depth),
    }
}

/// The place of a statement outside all blocks that is too high.
fn tall_at(depth: usize, heights: &[u8], event: &Event) -> Option<usize>
    ensures { result ≡ tall_at event.now depth heights.now }
{
    match event {
        Event::Statement { from, .. } => {
            let last = heights.len().saturating_sub(1);
            if depth == 0 && greatest(&heights[last..]) > MOST_LEVELS {
                Some(*from as usize)
            } else {
                None
            }
        }
        _ => None,
    }
}

/// The place of the first statement outside all blocks that is too high.
fn tall_in_events(alloc: Global, events: &[Event]) -> Result<Option<usize>, Memory>
    ensures { IfOk result (λ tall. tall ≡ first_tall_in 0 [] events.now) }
{
    let mut depth = 0;
    let mut heights = Vec::new(alloc);
    for event in events {
        let tall = tall_at(depth, &heights, event);
        if tall.is_some() {
            return Ok(tall);
        }
        build(&mut heights, event)?;
        depth = open_behind(depth, event)?;
    }
    Ok(None)
}

/// How many more events the statement outside all blocks may have behind an event, where it may have this many before.
fn left_behind(depth: usize, left: u8, event: &Event) -> u8
    ensures { result ≡ left_behind event.now depth left }
{
    match event {
        Event::Statement { .. } if depth == 0 => MOST_LEVELS,
        _ => left.saturating_sub(1),
    }
}

/// Whether an event ends no statement outside all blocks that has too many events.
fn is_short_at(depth: usize, left: u8, event: &Event) -> bool
    ensures { result ≡ short_at event.now depth left }
{
    match event {
        Event::Statement { .. } => depth > 0 || left > 0,
        _ => true,
    }
}

/// Whether each statement outside all blocks has 200 events at most, with its own. An event raises a height by one level
/// at most, so no such statement is too high.
fn are_short(events: &[Event]) -> Result<bool, Memory>
    ensures { IfOk result (λ short. short ≡ all_short 0 200 events.now) }
{
    let mut depth = 0;
    let mut left = MOST_LEVELS;
    for event in events {
        if !is_short_at(depth, left, event) {
            return Ok(false);
        }
        left = left_behind(depth, left, event);
        depth = open_behind(depth, event)?;
    }
    Ok(true)
}

/// Whether there are 200 events at most, which build nothing that is too high.
fn are_few(events: &[Event]) -> bool
    ensures { IsTrue result ↔ length events.now ≤ 200 }
{
    events.len() <= usize::from(MOST_LEVELS)
}

/// The place of the first outermost statement that is higher than 200: of its first token.
pub(crate) fn first_tall(alloc: Global, events: &[Event]) -> Result<Option<usize>, Memory>
    ensures { IfOk result (λ tall. (ss : SpannedStatements) → events.now ≡ statements_events ss → tall ≡ first_tall ss) }
{
    if are_few(events) {
        return Ok(None);
    }
    if are_short(events)? {
        return Ok(None);
    }
    tall_in_events(alloc, events)
}
