// A law of `changes`. The function does nothing; its contract is the law.
ghost use Rattle.std.specs.Prelude.{◌≡◌};
ghost use Rattle.image_model.specs.Image.{ImageOf};
ghost use Rattle.script_model.specs.Makers.{Text};
ghost use Rattle.apply_model.specs.declared.status.Status.{Status};
ghost use Rattle.changes_model.specs.Changes.{ChangesIn};

use script_model::has_one_reading;

/// A script has at most one answer of `changes` in an image.
pub fn has_one_change_in_image()
    ensures { (i : ImageOf Text) (script : Text) (s t : Status) (sent other : Text) →
        ChangesIn i script s sent → ChangesIn i script t other → (s ≡ t) × (sent ≡ other) }
{
    has_one_reading();
}
