// The uses in the code at places now.
ghost use Rattle.std.specs.Prelude.{◌≡◌, ◌≤◌, ◌+◌, length, IfOk};
ghost use Rattle.use_index.specs.Fresh.{AreUsesAt, places_of};
ghost use Rattle.use_index.specs.Index.{uses_at};

use crate::code::{doit_uses, method_uses};
use crate::uses::Uses;
use class_table::{Image, Place};
use rb_base::{Memory, Steps};
use std::alloc::Global;
use std::sync::ledger::Ledger;

/// A place and the uses in its code.
#[derive(Drop)]
pub struct FreshUses {
    pub place: Place,
    pub uses: Uses,
}

/// The uses in the code at a place. Opens it.
fn uses_in<L: Ledger>(
    alloc: Global,
    image: &Image,
    place: Place,
    steps: &mut Steps<L>,
) -> Result<Uses, Memory>
    ensures uses { IfOk result (λ uses. uses ≡ uses_at image.now place) }
    ensures step { steps.new ≡ steps.old + 1 }
{
    match place {
        Place::Method(slot) => match image.open_body(slot, steps) {
            Some(tree) => method_uses(alloc, image.names(), tree),
            None => Ok(Uses::new(alloc)),
        },
        Place::DoIt(number) => match image.open_doit(number, steps) {
            Some(body) => doit_uses(alloc, image.names(), body),
            None => Ok(Uses::new(alloc)),
        },
    }
}

/// The uses in the code at these places. Opens each of them once.
pub fn fresh_uses<L: Ledger>(
    alloc: Global,
    image: &Image,
    places: &[Place],
    steps: &mut Steps<L>,
) -> Result<Vec<FreshUses>, Memory>
    ensures places { IfOk result (λ fresh. places_of fresh.items ≡ places.now) }
    ensures uses { IfOk result (λ fresh. AreUsesAt image.now fresh.items) }
    ensures steps { steps.new ≤ steps.old + length places.now }
{
    let mut fresh = Vec::new(alloc);
    for place in places {
        let uses = uses_in(alloc, image, *place, steps)?;
        fresh.push(FreshUses {
            place: *place,
            uses,
        })?;
    }
    Ok(fresh)
}
