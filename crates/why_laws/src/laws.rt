// A law of `why`. The function does nothing; its contract is the law.
ghost use Rattle.std.specs.Prelude.{◌≡◌};
ghost use Rattle.file_model.specs.Causes.{Refusal};
ghost use Rattle.query_model.specs.Lines.{Text};
ghost use Rattle.apply_model.specs.declared.status.Status.{Status};
ghost use Rattle.why_model.specs.Why.{Why};

use command_laws::{law_effect, law_scripts};
use kernel_image::{every_image_is_valid, every_text_is_read_or_refused};
use rule_laws::{law_rule_keeps_runs, law_said_rule};
use script_model::has_one_reading;

/// Two texts have an answer of `why`: so each script that is refused in the image of a file-out has its explanation.
pub fn has_some_answer()
    ensures { (image_line : Refusal → Text) (text script : Text) → (s : Status) × (sent : Text) × Why image_line text script s sent }
{
    every_text_is_read_or_refused();
    every_image_is_valid();
    has_one_reading();
    law_effect();
    law_scripts();
    law_rule_keeps_runs();
    law_said_rule();
}
