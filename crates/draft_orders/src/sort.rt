// Items with places, and the order by place.
ghost use Rattle.std.specs.Prelude.{◌≡◌, OnOk};
ghost use Rattle.file_model.specs.Places.{by_place};

use rb_base::Memory;
use std::marker::Model;

/// An item with its place.
#[derive(Drop)]
pub struct Placed<T> {
    pub place: usize,
    pub item: T,
}

impl<T> Model for Placed<T> {
    ghost use Rattle.file_model.specs.Places.{PlacedOf};

    ghost Value = { PlacedOf T };

    ghost view = { λ a. record { place = a.place; item = a.item } };

    ghost inverse = { λ p. record { place = p.place; item = p.item } };
}

/// Puts items in ascending order of their places; those of one place keep their order.
pub fn sort<T: Drop>(items: &mut Vec<Placed<T>>) -> Result<(), Memory>
    ensures { OnOk result (items.new.items ≡ by_place items.old.items) }
{
    items.sort_by_key(|placed| placed.place)?;
    Ok(())
}
