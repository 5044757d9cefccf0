// The laws. Each function does nothing; its contract is the law.
ghost use Rattle.std.specs.Prelude.{◌≡◌, List, map, Ok, Err};
ghost use Rattle.std.specs.List.{AllByRecursion};
ghost use Rattle.image_model.specs.Image.{DoItOf, ImageOf, plus};
ghost use Rattle.run_model.specs.Matched.{AreMatched};
ghost use Rattle.command_model.specs.Beside.{HasOneMore};
ghost use Rattle.history_model.specs.Rules.{Asks};
ghost use Rattle.history_model.specs.History.{by_result, after_action, stepped};
ghost use Rattle.rule_model.specs.RuleCommands.{Unmet};
ghost use Rattle.run_model.specs.Values.{Name};
ghost use Rattle.session_model.specs.Admitted.{nil_doit};
ghost use Rattle.session_model.specs.Scripts.{Request, rules, verdict_in};
ghost use Rattle.kept_runs.specs.KeepsRuns.{IsSound, AllKeepRuns, IsKept};
ghost use Rattle.ruled_model.specs.RuledScripts.{Asked, Line, Version, History, ruled, ruled_verdict, AdmitsRuled, as_line, as_refusal};
ghost use Rattle.ruled_laws.specs.SpelledRequests.{IsSpelledAsked};

use rule_laws::law_rule_keeps_runs;

/// Where each single command keeps runs, so does what a line asks for, beside undo and redo, in each version of a history: if a
/// version keeps the runs of an image, so does the version after.
pub fn law_ruled_action()
    ensures { (kernel i : ImageOf Name) (v w : Version) (x : Asked) → AllKeepRuns kernel → IsKept kernel i v → IsSpelledAsked x →
        after_action ruled v x ≡ Ok w → IsKept kernel i w }
{
    law_rule_keeps_runs();
}

/// Where each single command keeps runs, so does each script that is accepted, rules with certificates, composites, undo and redo
/// among its lines: the image after is valid, can be written where the image before can, has the kernel first where that has, and
/// is matched by it up to what the script renames.
pub fn law_ruled_history()
    ensures { (kernel i : ImageOf Name) (script : List Line) (h : History) → AllKeepRuns kernel → IsSound kernel i →
        AllByRecursion (Asks IsSpelledAsked) script → ruled_verdict i script ≡ Ok h → IsKept kernel i h.now }
{
    law_rule_keeps_runs();
}

/// For each start expression that such a script admits, the result in the image with that expression as last do-it is the result
/// in the image with one more do-it, and the image with the expression is matched by it, up to the same renaming.
pub fn law_ruled_admitted()
    ensures { (kernel i : ImageOf Name) (script : List Line) (h : History) (e : DoItOf Name) → AllKeepRuns kernel → IsSound kernel i →
        AllByRecursion (Asks IsSpelledAsked) script → ruled_verdict i script ≡ Ok h → (a : AdmitsRuled i script e) →
        HasOneMore h.now.image a.history.now.image × (a.history.now.renaming ≡ h.now.renaming)
        × AreMatched (plus i e) a.history.now.image h.now.renaming }
{
    law_rule_keeps_runs();
}

/// A line that asks for no rule makes of a history what it makes of it by itself, and so does a script of such lines.
pub fn law_without_rules()
    ensures step { (h : History) (x : Request) → stepped ruled h (as_line x) ≡ by_result (λ g. Ok g) (λ q. Err (Unmet q)) (stepped rules h x) }
    ensures verdict { (i : ImageOf Name) (script : List Request) → ruled_verdict i (map as_line script) ≡ by_result (λ h. Ok h) (λ r. Err (as_refusal r)) (verdict_in i script) }
{}

/// Wherever such a script is accepted it admits the start expression `nil`.
pub fn law_ruled_nil()
    ensures { (i : ImageOf Name) (script : List Line) (h : History) → ruled_verdict i script ≡ Ok h → AdmitsRuled i script nil_doit }
{}
