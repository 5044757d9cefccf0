// Laws of the program. Each function does nothing; its contract is the law.
ghost use Rattle.std.specs.Prelude.{ℕ, List, ◌++◌, map, length, replicate};
ghost use Rattle.history_model.specs.Rules.{Perform, Undo, Redo};
ghost use Rattle.ruled_model.specs.RuledScripts.{Asked, Line};
ghost use Rattle.script_model.specs.Scripts.{Says};
ghost use Rattle.apply_laws.specs.Promised.{IsRefusalOf};
ghost use Rattle.apply_laws.specs.FileOuts.{IsValidFileOut};
ghost use Rattle.image_forms.specs.declared.status.Status.TheVariants as status;
ghost use Rattle.image_forms.specs.Loads.{World};
ghost use Rattle.image_forms.specs.Answers.{Applies, Answers};
ghost use Rattle.browse_laws.specs.Given.{apply_words, AreGiven};

/// Where `apply IMAGE SCRIPT` is answered with the status `Done`, what is sent is the changed file: that of the image that the
/// script makes of the image of the first file. That image is valid, whatever the commands of the script are, and within the
/// limits of a file what is sent is read again as that image, with the do-its at its head counted anew. The runs of that image
/// are those of the image before, up to what the script renames. Where the status is `Condition`, what is sent names the first
/// command of the script that is refused, and its first condition that is false; the commands before it are accepted.
pub fn law_applied()
    ensures done { (w : World) (image script sent : List ℕ) → Answers w (apply_words image script) status.Done sent →
        AreGiven w image script (λ text commands. IsValidFileOut text commands sent) }
    ensures condition { (w : World) (image script sent : List ℕ) → Answers w (apply_words image script) status.Condition sent →
        AreGiven w image script (λ text commands. IsRefusalOf text commands sent) }
{
    apply_laws::law_applied();
}

/// A script that ends with commands and as many `undo` sends what it sends without these, byte for byte: the image is the one from
/// before the commands. So does a script that ends with some `undo` and as many `redo`.
pub fn law_undone()
    ensures undo { (text script longer sent : List ℕ) (requests : List Line) (actions : List Asked) →
        Says script requests → Says longer (requests ++ (map (λ a. Perform a) actions ++ replicate (length actions) Undo)) →
        Applies text longer status.Done sent → Applies text script status.Done sent }
    ensures redo { (text script longer sent : List ℕ) (requests : List Line) (n : ℕ) →
        Says script requests → Says longer (requests ++ (replicate n Undo ++ replicate n Redo)) →
        Applies text longer status.Done sent → Applies text script status.Done sent }
{
    script_model::has_one_reading();
}
