// The laws. Each function does nothing; its contract is the law.
ghost use Rattle.std.specs.Prelude.{◌≡◌, None};
ghost use Rattle.image_model.specs.Image.{DoItOf, ImageOf, plus};
ghost use Rattle.run_model.specs.Renamings.{no_renaming};
ghost use Rattle.run_model.specs.Matched.{AreMatched};
ghost use Rattle.certified_model.specs.Marks.{Text};
ghost use Rattle.session_model.specs.Admitted.{nil_doit};
ghost use Rattle.rewrite_model.specs.Saying.{SaysRule};
ghost use Rattle.rule_model.specs.Beside.{doit_after};
ghost use Rattle.rule_model.specs.RuleCommands.{RuleCommand, rule_effect, first_false_of_rule};
ghost use Rattle.rule_laws.specs.KeptRules.{IsSpelledRule, RuleKeepsRuns};

use certified_laws::law_rewritten_images;
use pattern_laws::law_text_words;
use rewrite_model::has_one_pattern;
use rule_kept::law_spelled_comments;
use rule_model::law_rule_beside;

/// The command keeps runs, where its texts spell the rule. Where none of its conditions is false in a valid image, the image
/// after is valid, can be written where the image before can, has the kernel first where that has, and is matched by it with
/// nothing renamed.
pub fn law_rule_keeps_runs()
    ensures { (kernel : ImageOf Text) (c : RuleCommand) → IsSpelledRule c → RuleKeepsRuns kernel c }
{
    law_rewritten_images();
    law_text_words();
}

/// So the runs of an image with a start expression as last do-it are those of the image after with that expression rewritten, where
/// no condition of the command is false in the image with the expression.
pub fn law_rule_beside_matched()
    ensures { (i : ImageOf Text) (c : RuleCommand) (e : DoItOf Text) → IsSpelledRule c → first_false_of_rule c (plus i e) ≡ None →
        AreMatched (plus i e) (plus (rule_effect c i) (doit_after c e)) no_renaming }
{
    law_rewritten_images();
    law_text_words();
    law_rule_beside();
}

/// The two texts of a rule spell it.
pub fn law_said_rule()
    ensures { (first second : Text) (c : RuleCommand) → SaysRule first second c.rule → IsSpelledRule c }
{
    has_one_pattern();
    law_spelled_comments();
}

/// The start expression `nil` is left as it is, and no condition is false in the image with it, where none is in the image.
pub fn law_rule_nil()
    ensures holds { (c : RuleCommand) (i : ImageOf Text) → first_false_of_rule c i ≡ None → first_false_of_rule c (plus i nil_doit) ≡ None }
    ensures left { (c : RuleCommand) (i : ImageOf Text) → first_false_of_rule c i ≡ None → rule_effect c (plus i nil_doit) ≡ plus (rule_effect c i) nil_doit }
{}
