// The last items of a list, and items that come.
ghost use Rattle.std.specs.Prelude.{◌≡◌, ◌++◌, ◌∷◌, [], IfOk, OnOk, option_to_list};
ghost use Rattle.event_trees.specs.Stacks.{front, last};

use rb_base::Memory;
use std::alloc::Global;

/// Takes the last items off, or all where there are fewer.
#[inline]
pub fn take_last<T>(items: &mut Vec<T>, count: usize) -> Result<Vec<T>, Memory>
    ensures kept { OnOk result (items.new.items ≡ front count items.old.items) }
    ensures taken { IfOk result (λ taken. taken.items ≡ last count items.old.items) }
{
    if count == 0 {
        return Ok(Vec::new(*items.allocator()));
    }
    let at = items.len().saturating_sub(count);
    Ok(items.split_off(at)?)
}

/// Takes the last item off, where there is one.
#[inline]
pub fn take_one<T>(items: &mut Vec<T>) -> Option<T>
    ensures kept { items.new.items ≡ front 1 items.old.items }
    ensures taken { last 1 items.old.items ≡ option_to_list result }
{
    items.pop()
}

/// Appends an item; on want of memory it is dropped.
#[inline]
pub fn put<T: Drop>(items: &mut Vec<T>, item: T) -> Result<(), Memory>
    ensures { OnOk result (items.new.items ≡ items.old.items ++ item ∷ []) }
{
    items.push(item)?;
    Ok(())
}

/// Puts a value behind a pointer; on want of memory it is dropped.
#[inline]
pub fn boxed<T: Drop>(alloc: Global, value: T) -> Result<Box<T>, Memory>
    ensures { IfOk result (λ boxed. boxed.value ≡ value) }
{
    Ok(Box::new(alloc, value)?)
}
