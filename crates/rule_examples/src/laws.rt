// Rules with certificates in small images. The function does nothing; its contract is what they make of them.
ghost use Rattle.std.specs.Prelude.{◌≡◌, true, false, [], ◌∷◌};
ghost use Rattle.certified_model.specs.Certificates.{derives};
ghost use Rattle.rewrite_model.specs.Rewritten.{rewritten_image};
ghost use Rattle.rule_examples.specs.Examples.{forth, back, both_rule, test_rule, with_both, without_both, with_test, without_test, to, inner, outer};

/// A small image after rules, with its texts, and certificates that derive them; one that does not; and law 7, which goes
/// forth and not back.
pub fn judges_rules()
    ensures both { rewritten_image both_rule with_both ≡ without_both }
    ensures both_derived { derives (forth 4 ∷ []) both_rule.pattern both_rule.replacement ≡ true }
    ensures not_derived { derives (forth 5 ∷ []) both_rule.pattern both_rule.replacement ≡ false }
    ensures test { rewritten_image test_rule with_test ≡ without_test }
    ensures test_derived { derives (forth 2 ∷ forth 1 ∷ []) test_rule.pattern test_rule.replacement ≡ true }
    ensures forth { derives (forth 7 ∷ []) (to outer inner).pattern (to outer inner).replacement ≡ true }
    ensures not_back { derives (back 7 ∷ []) (to inner outer).pattern (to inner outer).replacement ≡ false }
{}
