// The law of `team`. The function does nothing; its contract is the law.
ghost use Rattle.std.specs.Prelude.{ℕ, List};
ghost use Rattle.play_laws.specs.Promised.{IsPlayedFile};
ghost use Rattle.image_forms.specs.declared.status.Status.TheVariants as status;
ghost use Rattle.image_forms.specs.Loads.{World};
ghost use Rattle.image_forms.specs.Answers.{Answers};
ghost use Rattle.browse_laws.specs.Given.{team_words, AreGiven};

/// If `team IMAGE LOG` is answered with the status `Done`, what is sent are the replies to the events of the log, in whatever order
/// the sessions did their steps, and the file of the image at the end. The accepted commits, undos and redos of the log lead to
/// that image, each commit as one step. Some script makes it of the image of the first file: so it is valid, its runs are those of
/// the image before, up to what is renamed, and within the limits of a file its text is read again.
pub fn law_played()
    ensures { (w : World) (image log sent : List ℕ) → Answers w (team_words image log) status.Done sent →
        AreGiven w image log (λ text events. IsPlayedFile text events sent) }
{
    play_laws::law_played();
}
