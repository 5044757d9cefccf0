// Laws of rules with certificates. Each function does nothing; its contract is the law.
ghost use Rattle.std.specs.Prelude.{◌≡◌, Result};
ghost use Rattle.image_model.specs.Image.{DoItOf, ImageOf, plus};
ghost use Rattle.certified_model.specs.Marks.{Text};
ghost use Rattle.rule_model.specs.RuleCommands.{RuleCommand, rule_effect};
ghost use Rattle.rule_model.specs.RuleLines.{RuleLineSays};
ghost use Rattle.rule_model.specs.Beside.{doit_after};

use certificate_model::has_one_certificate;
use rewrite_model::{has_one_pattern, has_one_rule};

/// What stands behind the word of the command asks for one rule and its certificate, or for nothing, never both.
pub fn has_one_rule_line()
    ensures some { (t : Text) → (x : Result RuleCommand (Unit {0})) × RuleLineSays t x }
    ensures one { (t : Text) (x y : Result RuleCommand (Unit {0})) → RuleLineSays t x → RuleLineSays t y → x ≡ y }
{
    has_one_certificate();
    has_one_pattern();
    has_one_rule();
}

/// What the command makes of an image with one more do-it is what it makes of the image, with that do-it rewritten as one more.
pub fn law_rule_beside()
    ensures { (c : RuleCommand) (i : ImageOf Text) (e : DoItOf Text) → rule_effect c (plus i e) ≡ plus (rule_effect c i) (doit_after c e) }
{}
