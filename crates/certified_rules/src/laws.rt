// The laws of certified rules. Each function does nothing; its contract is the law, for all images whose names are texts.
ghost use Rattle.std.specs.Prelude.{◌≡◌, true, List};
ghost use Rattle.image_model.specs.Image.{ImageOf};
ghost use Rattle.run_model.specs.Values.{Name};
ghost use Rattle.run_model.specs.Renamings.{no_renaming};
ghost use Rattle.run_model.specs.Matched.{AreMatched};
ghost use Rattle.pattern_model.specs.Patterns.{PatternOf};
ghost use Rattle.pattern_model.specs.Matches.{IsLawful};
ghost use Rattle.pattern_model.specs.Rewritten.{RuleOf};
ghost use Rattle.certified_model.specs.LawSteps.{SteppedAlong};
ghost use Rattle.certified_model.specs.Certificates.{CertStep, derives};
ghost use Rattle.certified_rules.specs.RulesApplied.{RuleApplied};

use certified_laws::law_rewritten_images;
use pattern_laws::law_text_words;

/// Two images match each other, with nothing renamed, where the second is the first with a rule applied in each user method
/// and do-it, the rule's pattern is lawful, and a row of steps by the ten laws leads from it to the replacement.
pub fn law_certified_rule()
    ensures { (i j : ImageOf Name) (p q : PatternOf Name) (ps : List (PatternOf Name)) → IsLawful p → SteppedAlong p ps q →
        RuleApplied (record { pattern = p; replacement = q }) i j → AreMatched i j no_renaming }
{
    law_rewritten_images();
    law_text_words();
}

/// The same where a certificate derives the rule: its steps apply one after the other, and lead from the pattern to the
/// replacement.
pub fn law_derived_rule()
    ensures { (i j : ImageOf Name) (p q : PatternOf Name) (xs : List CertStep) → IsLawful p → derives xs p q ≡ true →
        RuleApplied (record { pattern = p; replacement = q }) i j → AreMatched i j no_renaming }
{
    law_rewritten_images();
    law_text_words();
}
