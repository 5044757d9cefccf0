// Laws of `why`. Each function does nothing; its contract is the law.
ghost use Rattle.std.specs.Prelude.{◌≡◌, List, false, Some};
ghost use Rattle.scope_model.specs.Control.{is_empty};
ghost use Rattle.image_model.specs.Image.{ImageOf};
ghost use Rattle.file_model.specs.Causes.{Refusal as ImageRefusal};
ghost use Rattle.query_model.specs.Lines.{Text};
ghost use Rattle.history_model.specs.Verdicts.{IsRefusedAt};
ghost use Rattle.rule_model.specs.RuleCommands.{RuleCommand, Reason, rule_judged, first_false_of_rule};
ghost use Rattle.ruled_model.specs.RuledScripts.{Line, Refusal, ruled};
ghost use Rattle.script_model.specs.Scripts.{Says};
ghost use Rattle.apply_model.specs.declared.status.Status.{Status};
ghost use Rattle.why_model.specs.Reasons.{rule_witnesses, AreShown};
ghost use Rattle.why_model.specs.Refusals.{Judging, line_refused, IsFirstFalse, IsShownWhere};
ghost use Rattle.why_model.specs.Spelled.{IsSpelledJudging};
ghost use Rattle.why_model.specs.Explained.{IsExplained};
ghost use Rattle.why_model.specs.Why.{WhyIn, Why};

use file_model::has_one_image;
use script_model::has_one_reading;

/// Each condition of a rule with its certificate holds exactly if nothing is in its way. So the first that is false has
/// something in its way.
pub fn law_rules()
    ensures shown { (i : ImageOf Text) (c : RuleCommand) → AreShown i c (rule_judged c i) }
    ensures hindered { (i : ImageOf Text) (c : RuleCommand) (reason : Reason) → first_false_of_rule c i ≡ Some reason →
        is_empty (rule_witnesses i c reason) ≡ false }
{}

/// What refuses a script is the first condition that is false where its line is refused: of a single change, of those that a
/// composite has beside its steps, or of the history. If it has witnesses at all, and what it speaks of is there, something is
/// in its way.
pub fn law_refused()
    ensures first_false { (i : ImageOf Text) (script : List Line) (refusal : Refusal) (r : IsRefusedAt ruled i script refusal) →
        IsFirstFalse r.history.now.image r.line refusal.condition }
    ensures shown { (i : ImageOf Text) (script : List Line) (refusal : Refusal) (r : IsRefusedAt ruled i script refusal) (j : Judging) →
        line_refused r.history.now.image r.line ≡ Some j → IsShownWhere j refusal.condition }
{}

/// A script has at most one explanation in an image.
pub fn has_one_explanation()
    ensures { (i : ImageOf Text) (script text other : Text) → IsExplained i script text → IsExplained i script other → text ≡ other }
{
    has_one_reading();
}

/// Each refused script has an explanation, if the sources spell the code of the image in which its line is refused, and of
/// the command.
pub fn law_explained()
    ensures { (i : ImageOf Text) (script : Text) (requests : List Line) (refusal : Refusal) (r : IsRefusedAt ruled i requests refusal) →
        Says script requests → IsSpelledJudging (line_refused r.history.now.image r.line) → (text : Text) × IsExplained i script text }
{}

/// A script has at most one answer of `why` in an image.
pub fn has_one_answer_in_image()
    ensures { (i : ImageOf Text) (script : Text) (s t : Status) (sent other : Text) →
        WhyIn i script s sent → WhyIn i script t other → (s ≡ t) × (sent ≡ other) }
{
    has_one_reading();
}

/// Two texts have at most one answer of `why`.
pub fn has_one_answer()
    ensures { (image_line : ImageRefusal → Text) (text script : Text) (s t : Status) (sent other : Text) →
        Why image_line text script s sent → Why image_line text script t other → (s ≡ t) × (sent ≡ other) }
{
    has_one_image();
    has_one_reading();
}
