// A law of `team`. The function does nothing; its contract is the law.
ghost use Rattle.std.specs.Prelude.{◌≡◌};
ghost use Rattle.file_model.specs.Causes.{Refusal};
ghost use Rattle.script_model.specs.Makers.{Text};
ghost use Rattle.apply_model.specs.declared.status.Status.{Status};
ghost use Rattle.play_model.specs.Played.{Plays};

use file_model::has_one_image;
use log_model::has_one_log;

/// Two texts have at most one answer of `team`.
pub fn has_one_answer()
    ensures { (image_line : Refusal → Text) (text log : Text) (s t : Status) (sent other : Text) →
        Plays image_line text log s sent → Plays image_line text log t other → (s ≡ t) × (sent ≡ other) }
{
    has_one_image();
    has_one_log();
}
