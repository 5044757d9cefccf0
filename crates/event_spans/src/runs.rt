// Neighbouring statements, found from where they begin and end.
ghost use Rattle.std.specs.Prelude.{◌≡◌, IfOk, drop, take};
ghost use Rattle.event_spans.specs.Runs.{roots, ending, run_of};

use crate::descent::behind;
use crate::place::Place;
use rb_base::{Memory, Span};

/// Neighbouring statements of a sequence.
#[derive(Clone, Copy)]
pub(crate) struct Run {
    /// The number of the first one, counted from 0.
    pub(crate) first: usize,
    /// How many there are.
    pub(crate) count: usize,
}

/// The number of the first outermost node that ends at a place, where the first one of all has the number 2.
fn ending(places: &[Place], to: usize) -> Result<Option<usize>, Memory>
    ensures { IfOk result (λ found. found ≡ ending 2 to (roots 0 places.now)) }
{
    let mut rest = places;
    let mut number: usize = 2;
    'roots: while let Some((place, more)) = rest.split_first() {
        if place.to == to {
            return Ok(Some(number));
        }
        number = number.checked_add(1).ok_or(Memory)?;
        rest = behind(place, more);
    }
    Ok(None)
}

/// The two or more outermost nodes that begin and end with the span.
pub(crate) fn run_in(places: &[Place], span: Span) -> Result<Option<Run>, Memory>
    ensures { IfOk result (λ found. found ≡ run_of 0 span (roots 0 places.now)) }
{
    let mut rest = places;
    let mut first: usize = 0;
    'roots: while let Some((place, more)) = rest.split_first() {
        rest = behind(place, more);
        if place.from == span.from {
            return match ending(rest, span.to)? {
                Some(count) => Ok(Some(Run { first, count })),
                None => Ok(None),
            };
        }
        first = first.checked_add(1).ok_or(Memory)?;
    }
    Ok(None)
}
