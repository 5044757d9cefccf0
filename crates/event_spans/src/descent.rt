// The node where a path leads.
ghost use Rattle.std.specs.Prelude.{◌≡◌, drop, take, None, option_map};
ghost use Rattle.std.specs.Option.{option_copied};
ghost use Rattle.event_spans.specs.Descent.{from_root, descend};

use crate::place::Place;

/// What stands behind a node and the nodes in it.
pub(crate) fn behind<'p>(place: &Place, rest: &'p [Place]) -> &'p [Place]
    ensures { result.now ≡ drop place.now.below rest.now }
{
    rest.get(place.below..).unwrap_or(&[])
}

/// The nodes in a node, of those behind it.
pub(crate) fn within<'p>(place: &Place, rest: &'p [Place]) -> &'p [Place]
    ensures { result.now ≡ take place.now.below rest.now }
{
    rest.get(..place.below).unwrap_or(rest)
}

/// The nodes from the outermost one of a number on.
fn from_root(places: &[Place], number: usize) -> &[Place]
    ensures { result.now ≡ from_root number places.now }
{
    let mut rest = places;
    let mut left = number;
    'roots: while left > 0 {
        let Some((place, more)) = rest.split_first() else {
            return rest;
        };
        rest = behind(place, more);
        left -= 1;
    }
    rest
}

/// The node where a path leads.
pub(crate) fn node_at(places: &[Place], path: &[usize]) -> Option<Place>
    ensures { result ≡ descend None places.now path.now }
{
    let mut found = None;
    let mut nodes = places;
    'steps: for step in path {
        let Some((place, more)) = from_root(nodes, *step).split_first() else {
            return None;
        };
        found = Some(*place);
        nodes = within(place, more);
    }
    found
}
