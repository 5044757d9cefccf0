// The positions of the classes that can be taken, the least one first.
ghost use Rattle.std.specs.Prelude.{◌≡◌, ℕ, ◌≤◌, ◌||◌, Bool, true, false, nat_eq, if◌then◌else◌, OnOk};
ghost use Rattle.draft_orders.specs.Ready.{stands, IsPopped};

use rb_base::Memory;
use std::alloc::Global;
use std::collections::BTreeSet;

/// No positions.
pub fn none(alloc: Global) -> BTreeSet<usize>
    ensures { (j : ℕ) → stands result j ≡ false }
{
    BTreeSet::new(alloc)
}

/// Puts a position in.
pub fn put(ready: &mut BTreeSet<usize>, place: usize) -> Result<(), Memory>
    ensures { OnOk result ((j : ℕ) → stands ready.new j ≡ (if nat_eq place j then true else stands ready.old j)) }
{
    ready.insert(place)?;
    Ok(())
}

/// Takes the least position out, if there is one.
pub fn pop(ready: &mut BTreeSet<usize>) -> Option<usize>
    ensures { IsPopped ready.old result ready.new }
{
    ready.pop_first()
}
