// Lists that grow at their end.
ghost use Rattle.std.specs.Prelude.{◌≡◌, ◌∷◌, ◌++◌, [], OnOk};

use rb_base::Memory;

/// Puts an item last.
pub fn push_last<T: Drop>(items: &mut Vec<T>, item: T) -> Result<(), Memory>
    ensures { OnOk result (items.new.items ≡ items.old.items ++ item ∷ []) }
{
    items.push(item)?;
    Ok(())
}
