// The law of `why`. The function does nothing; its contract is the law.
ghost use Rattle.std.specs.Prelude.{ℕ, List};
ghost use Rattle.image_forms.specs.declared.status.Status.TheVariants as status;
ghost use Rattle.image_forms.specs.Loads.{World};
ghost use Rattle.image_forms.specs.Answers.{Answers};
ghost use Rattle.browse_laws.specs.Given.{why_words, AreGiven};
ghost use Rattle.browse_laws.specs.Explained.{IsAccepted, IsToldWhy};

use why_model::law_refused;

/// If `why IMAGE SCRIPT` is answered with the status `Done`, nothing is sent, and the script is accepted. If the status is
/// `Condition`, what is sent begins with the line that `apply` sends, and explains it: it names the line of the script and the step
/// that is refused, and shows each thing that is in the way of the first condition that is false. If that condition has
/// witnesses at all, and what it is about is there, there is such a thing.
pub fn law_told_why()
    ensures done { (w : World) (image script sent : List ℕ) → Answers w (why_words image script) status.Done sent →
        AreGiven w image script (λ text commands. IsAccepted text commands sent) }
    ensures condition { (w : World) (image script sent : List ℕ) → Answers w (why_words image script) status.Condition sent →
        AreGiven w image script (λ text commands. IsToldWhy text commands sent) }
{
    law_refused();
}
