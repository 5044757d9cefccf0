// Laws of logs. Each function does nothing; its contract is the law.
ghost use Rattle.std.specs.Prelude.{◌≡◌, ◌⊎◌, ℕ, List, [], ◌∷◌, Ok, codes};
ghost use Rattle.history_model.specs.Rules.{Perform};
ghost use Rattle.ruled_model.specs.RuledScripts.{Asked};
ghost use Rattle.team_core.specs.Events.{Propose};
ghost use Rattle.script_model.specs.Makers.{Text};
ghost use Rattle.script_model.specs.Commands.{Cause};
ghost use Rattle.script_model.specs.Scripts.{Says};
ghost use Rattle.log_model.specs.Events.{ActSays, Event, LogSays, IsLogRefused};
ghost use Rattle.log_model.specs.Examples.{IsRuleEvent};

use script_model::{has_one_reading, judges_examples};

/// A session proposes what a line of a script asks for: a command, a composite, or a rule with its certificate. `rule` is about a
/// line of a log by which a session proposes a rule.
pub fn law_proposed()
    ensures asked { (behind : Text) (asked : Asked) → Says behind (Perform asked ∷ []) → ActSays (codes "propose") behind (Ok (Propose asked)) }
    ensures rule { IsRuleEvent }
{
    judges_examples();
}

/// A log asks for one list of events, or is refused at one line with one cause; never both, and never neither.
pub fn has_one_log()
    ensures events { (text : Text) (events others : List Event) → LogSays text events → LogSays text others → events ≡ others }
    ensures not_both { (text : Text) (events : List Event) (number : ℕ) (cause : Cause) → LogSays text events → ¬ IsLogRefused text number cause }
    ensures refusal { (text : Text) (number other : ℕ) (cause another : Cause) → IsLogRefused text number cause → IsLogRefused text other another → (number ≡ other) × (cause ≡ another) }
    ensures either { (text : Text) → ((events : List Event) × LogSays text events) ⊎ ((number : ℕ) × (cause : Cause) × IsLogRefused text number cause) }
{
    has_one_reading();
}
