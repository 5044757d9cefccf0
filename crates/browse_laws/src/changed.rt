// The law of `changes`. The function does nothing; its contract is the law.
ghost use Rattle.std.specs.Prelude.{ℕ, List, ◌++◌};
ghost use Rattle.file_rereading.specs.Rereading.{IsWithinLimits};
ghost use Rattle.apply_laws.specs.Promised.{IsRefusalOf};
ghost use Rattle.changes_laws.specs.ChangeFiles.{IsChangeFile};
ghost use Rattle.image_forms.specs.declared.status.Status.{Status};
ghost use Rattle.image_forms.specs.declared.status.Status.TheVariants as status;
ghost use Rattle.image_forms.specs.Loads.{World};
ghost use Rattle.image_forms.specs.Answers.{Runs, Answers};
ghost use Rattle.browse_laws.specs.Given.{changes_words, AreGiven};

use bare_model::law_bare_runs;
use changes_laws::law_changes;
use file_model::has_one_image;

/// Where `changes IMAGE SCRIPT` is answered with the status `Done`, what is sent is the change file from the image of the first
/// file to the image that the script makes of it, of which `apply` prints the file. Within the limits of a file the first file
/// with the change file behind it is read as that image, and `run` answers it, with any expression and any number of ticks, as
/// it answers what `apply` prints, with the same status and the same bytes. Where the status is `Condition`, what is sent names
/// the first command of the script that is refused, and its first condition that is false.
pub fn law_filed_in()
    ensures done { (w : World) (image script sent : List ℕ) → Answers w (changes_words image script) status.Done sent →
        AreGiven w image script (λ text commands. IsChangeFile text commands sent) }
    ensures run { (text script sent expression : List ℕ) (file : IsChangeFile text script sent) (budget : ℕ) (s : Status) (printed : List ℕ) →
        IsWithinLimits file.out.changed.history.now.image → Runs (text ++ sent) expression budget s printed → Runs file.printed expression budget s printed }
    ensures condition { (w : World) (image script sent : List ℕ) → Answers w (changes_words image script) status.Condition sent →
        AreGiven w image script (λ text commands. IsRefusalOf text commands sent) }
{
    law_changes();
    law_bare_runs();
    has_one_image();
}
