// The classes below a class, by position: from the last one back to the first one.
ghost use Rattle.std.specs.Prelude.{◌≡◌, ℕ, ◌∷◌, ◌++◌, [], length, nat_eq, if◌then◌else◌, slice_get, Option, Some, None, OnOk};
ghost use Rattle.std.specs.Option.{option_and_then};
ghost use Rattle.std.specs.HashMap.{get};
ghost use Rattle.draft_orders.specs.Chains.{IsChained, IsLinked};

use crate::lists::push_last;
use rb_base::Memory;
use std::alloc::Global;
use std::collections::HashMap;

/// For each superclass the position of the last class below it, and for each position that of the class before it that has the
/// same superclass.
#[derive(Drop)]
pub struct Chains {
    /// The superclass of the class at each position.
    pub above: Vec<Option<usize>>,
    pub last: HashMap<usize, usize>,
    pub before: Vec<Option<usize>>,
}

/// Notes the last position under a name, in place of an earlier one.
fn note(table: &mut HashMap<usize, usize>, name: usize, place: usize) -> Result<(), Memory>
    ensures { OnOk result ((n : ℕ) → get nat_eq table.new n ≡ (if nat_eq name n then Some place else get nat_eq table.old n)) }
{
    table.insert(name, place)?;
    Ok(())
}

impl Chains {
    /// No classes.
    pub fn new(alloc: Global) -> Chains
        ensures nothing { result.above.items ≡ [] }
        ensures chained { IsChained result }
    {
        Chains {
            above: Vec::new(alloc),
            last: HashMap::new(alloc),
            before: Vec::new(alloc),
        }
    }

    /// The last class below that of a name.
    pub fn last_below(&self, name: usize) -> Option<usize>
        ensures { result ≡ get nat_eq self.now.last name }
    {
        self.last.get(&name).copied()
    }

    /// The class before that at a position that has the same superclass.
    pub fn before(&self, place: usize) -> Option<usize>
        ensures { result ≡ option_and_then (λ (o : Option ℕ). o) (slice_get self.now.before.items place) }
    {
        self.before.get(place).copied().flatten()
    }

    /// Links the next position to the one before it, if it has a superclass.
    fn link(&mut self, superclass: Option<usize>) -> Result<(), Memory>
        ensures linked { OnOk result (IsLinked (length self.old.above.items) superclass self.old self.new) }
        ensures above { self.new.above ≡ self.old.above }
    {
        let Some(name) = superclass else {
            return push_last(&mut self.before, None);
        };
        let place = self.above.len();
        let last = self.last_below(name);
        push_last(&mut self.before, last)?;
        note(&mut self.last, name, place)
    }

    /// Puts the superclass of the class at the next position.
    pub fn push(&mut self, superclass: Option<usize>) -> Result<(), Memory>
        requires { IsChained self.old }
        ensures above { OnOk result (self.new.above.items ≡ self.old.above.items ++ superclass ∷ []) }
        ensures chained { OnOk result (IsChained self.new) }
    {
        self.link(superclass)?;
        push_last(&mut self.above, superclass)?;
        Ok(())
    }
}
