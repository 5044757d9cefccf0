// A list in two parts, so that an item is put in between them: the first part, and the second part with its last item first.
ghost use Rattle.std.specs.Prelude.{◌≡◌, ◌≤◌, ◌++◌, length, take, reverse, IfOk, OnOk};
ghost use Rattle.file_model.specs.Places.{put_at, put_all};

use crate::sort::Placed;
use rb_base::Memory;
use std::alloc::Global;

/// Takes items from the end of the first part until it has at most a number of them.
fn shorten<T: Drop>(front: &mut Vec<T>, back: &mut Vec<T>, count: usize) -> Result<(), Memory>
    ensures same { OnOk result (front.new.items ++ reverse back.new.items ≡ front.old.items ++ reverse back.old.items) }
    ensures within { OnOk result (length front.new.items ≤ count) }
{
    while front.len() > count {
        if let Some(item) = front.pop() {
            back.push(item)?;
        }
    }
    Ok(())
}

/// Puts items at the end of the first part until it has a number of them, or all.
fn lengthen<T: Drop>(front: &mut Vec<T>, back: &mut Vec<T>, count: usize) -> Result<(), Memory>
    requires { length front.old.items ≤ count }
    ensures same { OnOk result (front.new.items ++ reverse back.new.items ≡ front.old.items ++ reverse back.old.items) }
    ensures first { OnOk result (front.new.items ≡ take count (front.new.items ++ reverse back.new.items)) }
{
    while front.len() < count {
        match back.pop() {
            None => return Ok(()),
            Some(item) => front.push(item)?,
        }
    }
    Ok(())
}

/// Puts an item in at its place, or last where there are fewer items.
fn put<T: Drop>(front: &mut Vec<T>, back: &mut Vec<T>, placed: Placed<T>) -> Result<(), Memory>
    ensures { OnOk result (front.new.items ++ reverse back.new.items ≡ put_at placed (front.old.items ++ reverse back.old.items)) }
{
    let before = placed.place.saturating_sub(1);
    shorten(front, back, before)?;
    lengthen(front, back, before)?;
    back.push(placed.item)?;
    Ok(())
}

/// The items of both parts, in order.
fn join<T: Drop>(front: Vec<T>, back: Vec<T>) -> Result<Vec<T>, Memory>
    ensures { IfOk result (λ all. all.items ≡ front.items ++ reverse back.items) }
{
    let mut all = front;
    let mut left = back;
    while let Some(item) = left.pop() {
        all.push(item)?;
    }
    Ok(all)
}

/// Puts items in, one after the other. It takes little time for each of them where their places ascend.
pub fn put_all<T: Drop>(
    alloc: Global,
    items: Vec<T>,
    placed: Vec<Placed<T>>,
) -> Result<Vec<T>, Memory>
    ensures { IfOk result (λ all. all.items ≡ put_all placed.items items.items) }
{
    let mut front = Vec::new(alloc);
    let mut back = items;
    back.reverse();
    for item in placed {
        put(&mut front, &mut back, item)?;
    }
    join(front, back)
}
