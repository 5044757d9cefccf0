// The parts in which items are put in again: those of the kernel, those with a place, and those without one.
ghost use Rattle.std.specs.Prelude.{◌≡◌, ◌++◌, IfOk, OnOk};
ghost use Rattle.file_model.specs.Places.{by_place, put_all};
ghost use Rattle.draft_orders.specs.Parts.{IsAdded, HasNothing};

use crate::gap;
use crate::sort::{Placed, sort};
use rb_base::Memory;
use std::alloc::Global;

/// Items of the kernel, items with a place, and items without one.
#[derive(Drop)]
pub struct Parts<T> {
    pub kernel: Vec<T>,
    pub placed: Vec<Placed<T>>,
    pub rest: Vec<T>,
}

impl<T: Drop> Parts<T> {
    /// No items.
    pub fn new(alloc: Global) -> Parts<T>
        ensures { HasNothing result }
    {
        Parts {
            kernel: Vec::new(alloc),
            placed: Vec::new(alloc),
            rest: Vec::new(alloc),
        }
    }

    /// Puts an item at the end of its part.
    pub fn add(&mut self, kernel: bool, place: Option<usize>, item: T) -> Result<(), Memory>
        ensures { OnOk result (IsAdded self.old kernel place item self.new) }
    {
        if kernel {
            self.kernel.push(item)?;
            return Ok(());
        }
        match place {
            None => self.rest.push(item)?,
            Some(place) => self.placed.push(Placed { place, item })?,
        }
        Ok(())
    }

    /// The items of the kernel, and then the others, of which those with a place are put in at it.
    pub fn join(self, alloc: Global) -> Result<Vec<T>, Memory>
        ensures { IfOk result (λ all. all.items ≡ self.kernel.items ++ put_all (by_place self.placed.items) self.rest.items) }
    {
        let mut all = self.kernel;
        let mut placed = self.placed;
        sort(&mut placed)?;
        let mut others = gap::put_all(alloc, self.rest, placed)?;
        all.append(&mut others)?;
        Ok(all)
    }
}
