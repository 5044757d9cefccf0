// The law of `changes`. The function does nothing; its contract is the law.
ghost use Rattle.std.specs.Prelude.{◌≡◌, ◌<◌, ◌^◌, length};
ghost use Rattle.file_model.specs.Causes.{Refusal};
ghost use Rattle.script_model.specs.Makers.{Text};
ghost use Rattle.apply_model.specs.declared.status.Status.{Status};
ghost use Rattle.apply_model.specs.declared.status.Status.TheVariants as status;
ghost use Rattle.apply_laws.specs.Promised.{IsRefusalOf};
ghost use Rattle.changes_model.specs.Changes.{Changes};
ghost use Rattle.changes_laws.specs.ChangeFiles.{IsChangeFile};

use apply_laws::law_applied;
use change_file_laws::law_changed_texts;
use command_laws::law_scripts;
use file_model::has_one_image;
use kernel_image::every_image_is_valid;
use rule_laws::law_said_rule;
use script_model::has_one_reading;

/// Where `changes` is done, what it sends is the change file from the image of the text to the image that the script makes of it,
/// which `apply` prints. If the text has fewer than 1,000,000,000 bytes, and that image is within the limits of a file, the text
/// with the change file behind it is read as that image, and each chunk of the change file names only what differs. Where
/// `changes` ends by a condition, what it sends names the first command that is refused, and its first condition that is false.
pub fn law_changes()
    ensures done { (image_line : Refusal → Text) (text script : Text) (s : Status) (sent : Text) →
        Changes image_line text script s sent → s ≡ status.Done → length text < 10 ^ 9 → IsChangeFile text script sent }
    ensures condition { (image_line : Refusal → Text) (text script : Text) (s : Status) (sent : Text) →
        Changes image_line text script s sent → s ≡ status.Condition → IsRefusalOf text script sent }
{
    law_applied();
    law_changed_texts();
    law_scripts();
    law_said_rule();
    has_one_image();
    every_image_is_valid();
    has_one_reading();
}
