// Laws of `team`. Each function does nothing; its contract is the law.
ghost use Rattle.std.specs.Prelude.{◌≡◌, List};
ghost use Rattle.file_model.specs.Causes.{Refusal};
ghost use Rattle.script_model.specs.Makers.{Text};
ghost use Rattle.apply_model.specs.declared.status.Status.{Status};
ghost use Rattle.apply_model.specs.declared.status.Status.TheVariants as status;
ghost use Rattle.play_model.specs.Played.{Plays};
ghost use Rattle.play_laws.specs.Promised.{IsPlayedFile};

use command_laws::law_script_files;
use kernel_image::every_text_is_read_or_refused;
use log_model::has_one_log;
use rule_laws::law_said_rule;

/// Two texts have an answer of `team`.
pub fn has_some_answer()
    ensures { (image_line : Refusal → Text) (text log : Text) → (s : Status) × (sent : Text) × Plays image_line text log s sent }
{
    every_text_is_read_or_refused();
    has_one_log();
}

/// If `team` is done, what it sends are the lines of the events and the file of the image at the end. The versions are those to
/// which the accepted commits, undos and redos lead, and the last one is a version that a script makes, rules with certificates
/// among its lines, in whatever order the sessions did their steps. So its image is valid and keeps the runs of the image before, up to what is renamed; and within the
/// limits of a file its text is read again.
pub fn law_played()
    ensures { (image_line : Refusal → Text) (text log : Text) (s : Status) (sent : Text) →
        Plays image_line text log s sent → s ≡ status.Done → IsPlayedFile text log sent }
{
    law_script_files();
    law_said_rule();
}
