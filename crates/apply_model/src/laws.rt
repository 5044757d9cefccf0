// A law of `apply`. The function does nothing; its contract is the law.
ghost use Rattle.std.specs.Prelude.{◌≡◌};
ghost use Rattle.file_model.specs.Causes.{Refusal};
ghost use Rattle.script_model.specs.Makers.{Text};
ghost use Rattle.apply_model.specs.declared.status.Status.{Status};
ghost use Rattle.image_model.specs.Image.{ImageOf};
ghost use Rattle.apply_model.specs.Applied.{AppliesIn, Applies};

use file_model::has_one_image;
use script_model::has_one_reading;

/// Two texts have at most one answer of `apply`.
pub fn has_one_answer()
    ensures { (image_line : Refusal → Text) (text script : Text) (s t : Status) (sent other : Text) →
        Applies image_line text script s sent → Applies image_line text script t other → (s ≡ t) × (sent ≡ other) }
{
    has_one_image();
    has_one_reading();
}

/// A script has at most one answer of `apply` in an image.
pub fn has_one_answer_in_image()
    ensures { (i : ImageOf Text) (script : Text) (s t : Status) (sent other : Text) →
        AppliesIn i script s sent → AppliesIn i script t other → (s ≡ t) × (sent ≡ other) }
{
    has_one_reading();
}
