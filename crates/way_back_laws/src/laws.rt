// The law. The function does nothing; its contract is the law.
ghost use Rattle.std.specs.Prelude.{◌≡◌, List, Ok};
ghost use Rattle.std.specs.List.{AllByRecursion};
ghost use Rattle.token_model.specs.declared.kind.Dialect.TheVariants.{Second};
ghost use Rattle.st_kernel.specs.KernelText.{prelude_text};
ghost use Rattle.image_model.specs.Image.{ImageOf};
ghost use Rattle.run_model.specs.Values.{Name};
ghost use Rattle.file_model.specs.Reading.{IsImageOf, IsKernelOf};
ghost use Rattle.history_model.specs.Rules.{Asks};
ghost use Rattle.kept_runs.specs.KeepsRuns.{IsSound};
ghost use Rattle.ruled_model.specs.RuledScripts.{Line, History, ruled_verdict};
ghost use Rattle.ruled_laws.specs.SpelledRequests.{IsSpelledAsked};
ghost use Rattle.way_back_laws.specs.WayBack.{HasWayBack};

use command_laws::law_effect;
use inverse_laws::{law_commands_back, law_matched_back};
use kernel_image::every_image_is_valid;
use rule_laws::law_rule_keeps_runs;

/// Each script that is accepted has a way back: the image after all its lines is matched by the image before, with the inverse
/// maps of what the commands rename, the last one first; rules with certificates, composites, undo and redo may be among its
/// lines, and commands that move code. So it is of the image of each file-out.
pub fn law_scripts_back()
    ensures kept { (kernel i : ImageOf Name) (script : List Line) (h : History) → IsKernelOf Second prelude_text kernel → IsSound kernel i →
        AllByRecursion (Asks IsSpelledAsked) script → ruled_verdict i script ≡ Ok h → HasWayBack i h.now.image }
    ensures files { (text : Name) (i : ImageOf Name) (script : List Line) (h : History) → IsImageOf Second prelude_text text i →
        AllByRecursion (Asks IsSpelledAsked) script → ruled_verdict i script ≡ Ok h → HasWayBack i h.now.image }
{
    law_effect();
    law_rule_keeps_runs();
    law_commands_back();
    law_matched_back();
    every_image_is_valid();
}
