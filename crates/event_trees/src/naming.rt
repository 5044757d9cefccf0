// The numbers of names.
ghost use Rattle.std.specs.Prelude.{◌≡◌, ◌∷◌, [], Some, map, slice_get, IfOk, OnOk, OnErr};
ghost use Rattle.event_trees.specs.Stacks.{declared_by};
ghost use Rattle.event_trees.specs.Naming.{Grows, Adds, AllPass};

use parse_events::Declarations;
use rb_base::{Ids, Memory, NameId, Names, Text};
use std::alloc::Global;

/// The number of a name, which is added where it is new.
#[inline]
pub fn number_of(names: &mut Names, name: &Text) -> Result<NameId, Memory>
    ensures number { IfOk result (λ n. slice_get names.new n ≡ Some name.now) }
    ensures adds { OnOk result (Adds names.old names.new (AllPass (name.now ∷ []))) }
    ensures err { OnErr result (names.new ≡ names.old) }
{
    names.intern(name.as_slice())
}

/// The numbers of declared names, which are added where they are new.
pub fn numbers_of(
    alloc: Global,
    names: &mut Names,
    declarations: &Declarations,
) -> Result<Ids, Memory>
    ensures numbers { IfOk result (λ ids. map (slice_get names.new) ids ≡ declared_by (λ t. Some t) declarations.now) }
    ensures adds { OnOk result (Adds names.old names.new (AllPass (declared_by (λ t. t) declarations.now))) }
    ensures grows { Grows names.old names.new }
{
    let mut ids = Ids::new(alloc);
    for declaration in declarations.as_slice() {
        ids.push(number_of(names, &declaration.name)?)?;
    }
    Ok(ids)
}
