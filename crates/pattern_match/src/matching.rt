// What a pattern matches.
ghost use Rattle.std.specs.Prelude.{◌≡◌, [], IfOk, map, option_map};
ghost use Rattle.pattern_model.specs.MatchTree.{match_places};
ghost use Rattle.pattern_match.specs.Words.{number_words};
ghost use Rattle.pattern_match.specs.Gathering.{place_of, kept};

use crate::agreeing::agree;
use crate::standing::{Place, Walk};
use crate::walk::node_places;
use patterns::Pattern;
use rb_base::{Memory, Names};
use st_tree::Node;
use std::alloc::Global;

/// The places of the pattern's metavariables in the node, in the order of the text; None where the pattern does not match.
/// The nodes at a place are listed where its metavariable is doubled.
pub fn match_places<'n>(
    alloc: Global,
    names: &Names,
    pattern: &Pattern,
    node: &'n Node,
) -> Result<Option<Vec<Place<'n>>>, Memory>
    ensures { IfOk result (λ found. option_map (λ ps. map place_of ps.items) found ≡ option_map (map (kept [])) (match_places (number_words names.now) pattern.now node.now)) }
{
    let steps = Vec::new(alloc);
    let found = Vec::new(alloc);
    let mut walk = Walk { steps, found };
    let fits = node_places(alloc, names, pattern, node, &mut walk)?;
    if !fits {
        return Ok(None);
    }
    let equal = agree(&walk.found);
    if equal {
        Ok(Some(walk.found))
    } else {
        Ok(None)
    }
}
