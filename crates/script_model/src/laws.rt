// Laws of scripts. Each function does nothing; its contract is the law.
ghost use Rattle.std.specs.Prelude.{◌≡◌, ◌⊎◌, ℕ, List};
ghost use Rattle.ruled_model.specs.RuledScripts.{Line};
ghost use Rattle.script_model.specs.Commands.{Cause};
ghost use Rattle.script_model.specs.Scripts.{Says, IsRefused};
ghost use Rattle.script_model.specs.Examples.{AllSaid, AllRefused, commands, wrong_lines, wrong_additions, IsAddition, AllPassed, wrong_parameters, parameters, wrong_rules, AllWrongRules, IsRuleLine, IsExample, refused_scripts, HasLimit};

use grammar_model::spells_method_or_has_fault;
use rule_model::has_one_rule_line;

/// Lines ask for what stands beside them, those of each command that is performed once, or are wrong with the cause that
/// stands beside them; a line of `addMethod` asks for the method that its text spells, and one of `addParameter` for the
/// literal that its text is; a line of `applyRule` asks for the rule that its texts say, with its certificate. A script with lines
/// of all sorts asks for what stands beside it. Of scripts with several wrong lines the first is told; and there are at most 10,000
/// commands.
pub fn judges_examples()
    ensures commands { AllSaid commands }
    ensures wrong_lines { AllSaid wrong_lines }
    ensures wrong_additions { AllSaid wrong_additions }
    ensures addition { IsAddition }
    ensures wrong_parameters { AllSaid wrong_parameters }
    ensures parameters { AllPassed parameters }
    ensures wrong_rules { AllWrongRules wrong_rules }
    ensures rule { IsRuleLine }
    ensures script { IsExample }
    ensures refused { AllRefused refused_scripts }
    ensures limit { HasLimit }
{}

/// A script asks for one list of commands, or is refused at one line with one cause; never both, and never neither.
pub fn has_one_reading()
    ensures requests { (text : List ℕ) (requests others : List Line) → Says text requests → Says text others → requests ≡ others }
    ensures not_both { (text : List ℕ) (requests : List Line) (number : ℕ) (cause : Cause) → Says text requests → ¬ IsRefused text number cause }
    ensures refusal { (text : List ℕ) (number other : ℕ) (cause another : Cause) → IsRefused text number cause → IsRefused text other another → (number ≡ other) × (cause ≡ another) }
    ensures either { (text : List ℕ) → ((requests : List Line) × Says text requests) ⊎ ((number : ℕ) × (cause : Cause) × IsRefused text number cause) }
{
    spells_method_or_has_fault();
    has_one_rule_line();
}
