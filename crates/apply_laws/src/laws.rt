// Laws of `apply`. Each function does nothing; its contract is the law.
ghost use Rattle.std.specs.Prelude.{◌≡◌};
ghost use Rattle.file_model.specs.Causes.{Refusal};
ghost use Rattle.script_model.specs.Makers.{Text};
ghost use Rattle.apply_model.specs.declared.status.Status.{Status};
ghost use Rattle.apply_model.specs.declared.status.Status.TheVariants as status;
ghost use Rattle.apply_model.specs.Applied.{Applies};
ghost use Rattle.apply_laws.specs.Promised.{IsRefusalOf};
ghost use Rattle.apply_laws.specs.FileOuts.{IsValidFileOut};

use command_laws::law_script_files;
use kernel_image::every_text_is_read_or_refused;
use rule_laws::law_said_rule;
use ruled_laws::law_ruled_nil;
use script_model::has_one_reading;

/// Two texts have an answer of `apply`.
pub fn has_some_answer()
    ensures { (image_line : Refusal → Text) (text script : Text) → (s : Status) × (sent : Text) × Applies image_line text script s sent }
{
    every_text_is_read_or_refused();
    has_one_reading();
}

/// Where `apply` is done, what it sends is the file of the image that the script makes. That image is valid, whatever the
/// commands of the script are, rules with certificates among them; and within the limits of a file what is sent is read again as
/// that image, with the do-its at its head counted anew. That image keeps the runs of the image before, with each start
/// expression that the script admits, up to what is renamed, and so does the image that is read again. Where `apply` ends by a
/// condition, what it sends names the first command that is refused, and its first condition that is false.
pub fn law_applied()
    ensures done { (image_line : Refusal → Text) (text script : Text) (s : Status) (sent : Text) →
        Applies image_line text script s sent → s ≡ status.Done → IsValidFileOut text script sent }
    ensures condition { (image_line : Refusal → Text) (text script : Text) (s : Status) (sent : Text) →
        Applies image_line text script s sent → s ≡ status.Condition → IsRefusalOf text script sent }
{
    law_script_files();
    law_said_rule();
    law_ruled_nil();
}
