// Classes that are settled from any order: those that can be taken are kept by their positions, and what is taken makes the
// classes below it ready.
ghost use Rattle.std.specs.Prelude.{◌≡◌, ℕ, ◌-◌, ◌<◌, ◌∷◌, ◌++◌, [], ◌||◌, ◌&&◌, length, nat_eq, slice_get, slice_set, option_copied, is_some, not, if◌then◌else◌, Option, Some, None, IfOk, OnOk};
ghost use Rattle.std.specs.Option.{option_map_or, option_and_then};
ghost use Rattle.image_model.specs.Image.{ClassOf};
ghost use Rattle.file_model.specs.Hierarchy as hierarchy;
ghost use Rattle.draft_orders.specs.Chains.{is_below, IsChained};
ghost use Rattle.draft_orders.specs.Ready.{stands};
ghost use Rattle.draft_orders.specs.Settling.{is_there, left, AreReady, IsStep};

use crate::chains::Chains;
use crate::lists::push_last;
use crate::ready;
use image_draft::ClassDraft;
use rb_base::Memory;
use std::alloc::Global;
use std::collections::BTreeSet;

/// Classes of which some are taken.
#[derive(Drop)]
struct Settling {
    /// The class at each position, unless it is taken.
    slots: Vec<Option<ClassDraft>>,
    chains: Chains,
    /// The positions of the classes that can be taken.
    ready: BTreeSet<usize>,
    taken: Vec<ClassDraft>,
}

/// The number of the superclass of a class.
fn above_of(class: &ClassDraft) -> Option<usize>
    ensures { result ≡ class.now.superclass }
{
    class.superclass.as_ref().map(|name| name.0)
}

/// The number of the name of a class.
fn name_of(class: &ClassDraft) -> usize
    ensures { result ≡ class.now.name }
{
    class.name.0
}

/// Takes the class at a position out of its slot.
fn take_slot(slots: &mut Vec<Option<ClassDraft>>, place: usize) -> Option<ClassDraft>
    requires { place < length slots.old.items }
    ensures class { slice_get slots.old.items place ≡ Some result }
    ensures left { slots.new.items ≡ slice_set slots.old.items place None }
{
    std::mem::replace(&mut slots[place], None)
}

/// Whether the class at a position is not taken yet.
fn is_there(slots: &[Option<ClassDraft>], place: usize) -> bool
    ensures { result ≡ is_there slots.now place }
{
    match slots.get(place) {
        Some(slot) => slot.is_some(),
        None => false,
    }
}

/// Makes the class at a position ready, if it has no superclass.
fn wake_free(ready: &mut BTreeSet<usize>, place: usize, above: Option<usize>) -> Result<(), Memory>
    ensures { OnOk result ((j : ℕ) → stands ready.new j ≡ (stands ready.old j || (nat_eq place j && not (is_some above)))) }
{
    if above.is_none() {
        ready::put(ready, place)?;
    }
    Ok(())
}

/// Makes the class at a position ready, unless it is taken.
fn wake_at(
    ready: &mut BTreeSet<usize>,
    slots: &[Option<ClassDraft>],
    place: usize,
) -> Result<(), Memory>
    ensures { OnOk result ((j : ℕ) → stands ready.new j ≡ (stands ready.old j || (nat_eq place j && is_there slots.now j))) }
{
    if is_there(slots, place) {
        ready::put(ready, place)?;
    }
    Ok(())
}

/// Makes the classes below that of a name ready, unless they are taken.
fn wake(
    ready: &mut BTreeSet<usize>,
    slots: &[Option<ClassDraft>],
    chains: &Chains,
    name: usize,
) -> Result<(), Memory>
    requires { IsChained chains.now }
    ensures { OnOk result ((j : ℕ) → stands ready.new j ≡ (stands ready.old j || (is_below chains.now.above.items name j && is_there slots.now j))) }
{
    let mut next = chains.last_below(name);
    while let Some(place) = next {
        wake_at(ready, slots, place)?;
        next = chains.before(place);
    }
    Ok(())
}

impl Settling {
    /// No classes.
    fn new(alloc: Global) -> Settling
        ensures ready { AreReady result }
        ensures taken { result.taken.items ≡ [] }
        ensures left { left result.slots.items ≡ [] }
    {
        Settling {
            slots: Vec::new(alloc),
            chains: Chains::new(alloc),
            ready: ready::none(alloc),
            taken: Vec::new(alloc),
        }
    }

    /// Puts a class at the next position, before any is taken.
    fn add(&mut self, class: ClassDraft) -> Result<(), Memory>
        requires ready { AreReady self.old }
        requires none { self.old.taken.items ≡ [] }
        ensures ready { OnOk result (AreReady self.new) }
        ensures none { OnOk result (self.new.taken.items ≡ []) }
        ensures left { OnOk result (left self.new.slots.items ≡ left self.old.slots.items ++ class ∷ []) }
    {
        let place = self.slots.len();
        let above = above_of(&class);
        push_last(&mut self.slots, Some(class))?;
        wake_free(&mut self.ready, place, above)?;
        self.chains.push(above)?;
        Ok(())
    }

    /// Takes the first class that can be taken, and tells whether there was one.
    fn step(&mut self) -> Result<bool, Memory>
        requires { AreReady self.old }
        ensures { IfOk result (λ more. IsStep more self.old self.new) }
    {
        let Some(place) = ready::pop(&mut self.ready) else {
            return Ok(false);
        };
        let Some(class) = take_slot(&mut self.slots, place) else {
            return Ok(false);
        };
        let name = name_of(&class);
        push_last(&mut self.taken, class)?;
        wake(&mut self.ready, &self.slots, &self.chains, name)?;
        Ok(true)
    }

    /// Puts classes at the next positions, before any is taken.
    fn add_all(&mut self, classes: Vec<ClassDraft>) -> Result<(), Memory>
        requires ready { AreReady self.old }
        requires none { self.old.taken.items ≡ [] }
        requires nothing { left self.old.slots.items ≡ [] }
        ensures ready { OnOk result (AreReady self.new) }
        ensures none { OnOk result (self.new.taken.items ≡ []) }
        ensures left { OnOk result (left self.new.slots.items ≡ classes.items) }
    {
        for class in classes {
            self.add(class)?;
        }
        Ok(())
    }

    /// Takes a number of classes, one after the other, or all that can be taken.
    fn take(&mut self, count: usize) -> Result<(), Memory>
        requires { AreReady self.old }
        ensures { OnOk result (self.new.taken.items ≡ hierarchy.settle_behind nat_eq count self.old.taken.items (left self.old.slots.items)) }
    {
        for _ in 0..count {
            if !self.step()? {
                return Ok(());
            }
        }
        Ok(())
    }
}

/// The classes in order: again and again the first one whose superclass is taken, or that has none, is taken.
pub fn settle(alloc: Global, classes: Vec<ClassDraft>) -> Result<Vec<ClassDraft>, Memory>
    ensures { IfOk result (λ ordered. ordered.items ≡ hierarchy.settled nat_eq classes.items) }
{
    let count = classes.len();
    let mut settling = Settling::new(alloc);
    settling.add_all(classes)?;
    settling.take(count)?;
    Ok(settling.taken)
}
