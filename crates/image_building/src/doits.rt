// The do-its of an image that is built.
ghost use Rattle.std.specs.Prelude.{◌≡◌, ◌<◌, ◌∷◌, ◌++◌, [], length, map, OnOk};
ghost use Rattle.std.specs.List.{AllByRecursion};
ghost use Rattle.image_model.specs.ImageNames.{DoItNames};
ghost use Rattle.class_table.specs.View.{doit_of};
ghost use Rattle.class_table.specs.Valid.{IsOrderly};
ghost use Rattle.live_slots.specs.Live.{AllLive};

use class_table::{DoIt, Image};
use rb_base::Memory;

/// Adds a do-it behind those that are there.
fn add_doit(image: &mut Image, doit: DoIt) -> Result<(), Memory>
    ensures { OnOk result (image.new ≡ record image.old { doits = image.old.doits ++ doit ∷ [] }) }
{
    match image.add_doit(doit) {
        Err(_) => Err(Memory),
        Ok(()) => Ok(()),
    }
}

/// Adds do-its behind those that are there.
pub fn add_doits(image: &mut Image, doits: Vec<DoIt>) -> Result<(), Memory>
    requires orderly { IsOrderly image.old }
    requires live { AllLive image.old }
    requires known { AllByRecursion (DoItNames (λ n. n < length image.old.names)) (map doit_of doits.items) }
    ensures doits { OnOk result (image.new ≡ record image.old { doits = image.old.doits ++ doits.items }) }
    ensures orderly { OnOk result (IsOrderly image.new) }
    ensures live { OnOk result (AllLive image.new) }
{
    for doit in doits {
        add_doit(image, doit)?;
    }
    Ok(())
}
