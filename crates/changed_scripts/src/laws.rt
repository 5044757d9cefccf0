// A law of images that one text makes. The function does nothing; its contract is the law.
ghost use Rattle.std.specs.Prelude.{◌≡◌};
ghost use Rattle.image_model.specs.Image.{ImageOf};
ghost use Rattle.script_model.specs.Makers.{Text};
ghost use Rattle.change_file.specs.Shown.{IsToldApart};
ghost use Rattle.changed_scripts.specs.OneText.{AreOfOneText, StaysApart};

use apply_laws::law_applied;
use file_model::has_one_image;
use kernel_image::every_image_is_valid;
use script_model::has_one_reading;

/// Images that one text makes are one image. No two classes of it have one name, and no two methods of the user in it are of
/// one class, side and selector; and so it is in the image after each script that is accepted.
pub(crate) fn law_of_one_text()
    ensures same { (i j : ImageOf Text) → AreOfOneText i j → j ≡ i }
    ensures apart { (i j : ImageOf Text) → AreOfOneText i j → IsToldApart i }
    ensures after { (i j : ImageOf Text) (script : Text) → AreOfOneText i j → StaysApart i script }
{
    every_image_is_valid();
    law_applied();
    has_one_image();
    has_one_reading();
}
