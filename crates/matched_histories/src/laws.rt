// The law. The function does nothing; its contract is the law.
ghost use Rattle.std.specs.Prelude.{◌≡◌, Ok};
ghost use Rattle.image_model.specs.Image.{ImageOf};
ghost use Rattle.run_model.specs.Values.{Name};
ghost use Rattle.history_model.specs.Rules.{Asks};
ghost use Rattle.history_model.specs.History.{after_action, appended, opened, stepped};
ghost use Rattle.session_model.specs.Scripts.{Request, rules};
ghost use Rattle.kept_runs.specs.WellSpelled.{IsWellSpelledAction};
ghost use Rattle.ruled_model.specs.RuledScripts.{Asked, Line, Version, History, ruled};
ghost use Rattle.ruled_laws.specs.SpelledRequests.{IsSpelledAsked};
ghost use Rattle.matched_histories.specs.MatchedHistories.{IsMatchedHistory, StaysMatched};

use command_laws::{law_effect, law_scripts};
use ruled_laws::{law_ruled_action, law_without_rules};

/// Each version of a history is matched with the first image: of the history of an image with which nothing was done, and of
/// the history after each line of a script, rules with certificates, composites, undo and redo among them, if it is so before.
/// The version after what a line asks for is matched if the version before is, and so it is after several one after the other
/// and after none; the history with that version as the present one is matched too.
pub fn law_matched_histories()
    ensures opened { (first : ImageOf Name) → IsMatchedHistory first (opened ruled first) }
    ensures step { (first : ImageOf Name) (h g : History) (line : Line) → IsMatchedHistory first h → Asks IsSpelledAsked line →
        stepped ruled h line ≡ Ok g → IsMatchedHistory first g }
    ensures plain { (first : ImageOf Name) (h g : History) (line : Request) → IsMatchedHistory first h → Asks IsWellSpelledAction line →
        stepped rules h line ≡ Ok g → IsMatchedHistory first g }
    ensures action { (first : ImageOf Name) (v w : Version) (x : Asked) → IsSpelledAsked x → after_action ruled v x ≡ Ok w → StaysMatched first v w }
    ensures none { (first : ImageOf Name) (v : Version) → StaysMatched first v v }
    ensures both { (first : ImageOf Name) (u v w : Version) → StaysMatched first u v → StaysMatched first v w → StaysMatched first u w }
    ensures appended { (first : ImageOf Name) (h : History) (w : Version) → IsMatchedHistory first h → StaysMatched first h.now w →
        IsMatchedHistory first (appended ruled h w) }
{
    law_effect();
    law_scripts();
    law_ruled_action();
    law_without_rules();
}
