// The law of a change and the change back. The function does nothing; its contract is the law.
ghost use Rattle.class_table.specs.Slots.{Slots};
ghost use Rattle.image_laws.specs.Orders.{HasOrders};
ghost use Rattle.change_set.specs.declared.change.Change.{Change};
ghost use Rattle.change_set.specs.Change.{applied, inverse, CanApply, LeadsBack};

/// What `apply_change` leaves in a change can be applied, restores the image, and leaves the change from before. The
/// orders in the image stay what they must be in each image.
pub fn law_change_undone()
    ensures back { (s : Slots) (c : Change) → HasOrders s → CanApply s c → LeadsBack s c (inverse s c) }
    ensures orders { (s : Slots) (c : Change) → HasOrders s → CanApply s c → HasOrders (applied s c) }
{}
