// The names of classes in the order of the classes.
ghost use Rattle.std.specs.Prelude.{◌≡◌, filter, not, nat_eq, true, None, Some, IfOk};
ghost use Rattle.image_model.specs.Valid.{class_names};
ghost use Rattle.image_draft.specs.Arranged.{in_order};
ghost use Rattle.placed_draft.specs.Placed.{ordered, IsWhole, NamesEach};

use crate::placed_draft::PlacedDraft;
use rb_base::{Ids, Memory, NameId};
use std::alloc::Global;

/// Notes names as the order of classes.
pub(crate) fn note(order: &mut Option<Ids>, names: Ids)
    ensures { order.new ≡ Some names }
{
    *order = Some(names);
}

/// Whether these are the same names in the same order.
fn are_same(names: &[NameId], others: &[NameId]) -> bool
    ensures { result ≡ true → names.now ≡ others.now }
{
    names == others
}

/// The names without one.
pub(crate) fn without_name(order: Ids, name: NameId) -> Ids
    ensures { result ≡ filter (λ n. not (nat_eq name n)) order }
{
    let mut names = order.into_vec();
    names.retain(|other| name != *other);
    Ids::from_vec(names)
}

impl PlacedDraft {
    /// Whether the classes of the draft stand in the order of these names.
    pub(crate) fn stands_in(&self, alloc: Global, order: &Ids) -> Result<bool, Memory>
        ensures { IfOk result (λ stands. stands ≡ true → order.now ≡ class_names self.now.draft.classes) }
    {
        let names = self.draft.class_names(alloc)?;
        Ok(are_same(order.as_slice(), names.as_slice()))
    }

    /// The names of the classes in their order, which are noted no more.
    pub(crate) fn take_order(&mut self, alloc: Global) -> Result<Ids, Memory>
        requires { IsWhole self.old }
        ensures taken { IfOk result (λ order. ordered self.old.order self.old.draft.classes ≡ in_order order self.old.draft.classes) }
        ensures each { IfOk result (λ order. NamesEach order self.old.draft.classes) }
        ensures rest { self.new ≡ record self.old { order = None } }
    {
        match self.order.take() {
            Some(order) => Ok(order),
            None => self.draft.class_names(alloc),
        }
    }
}
