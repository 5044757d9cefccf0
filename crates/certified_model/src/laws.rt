// Steps of certificates. Each function does nothing; its contract is the law, for all patterns whose names are texts.
ghost use Rattle.std.specs.Prelude.{List, ℕ};
ghost use Rattle.run_model.specs.Values.{Name};
ghost use Rattle.pattern_model.specs.Patterns.{MetaOf, PatternOf};
ghost use Rattle.pattern_model.specs.Bindings.{BoundOf};
ghost use Rattle.pattern_model.specs.Fill.{filled};
ghost use Rattle.tree_model.specs.Tree.{TreeOf};
ghost use Rattle.pattern_model.specs.Words.{PatternWordsOf};
ghost use Rattle.pattern_model.specs.Rewritten.{RuleOf, rewritten};
ghost use Rattle.certified_laws.specs.RewrittenTrees.{Rewritten};
ghost use Rattle.std.specs.List.{AllByRecursion};
ghost use Rattle.certified_model.specs.Certificates.{laws};
ghost use Rattle.certified_model.specs.LawSteps.{Stepped, BoundRewritten};

/// Where a pattern comes from another by laws of rewriting, the filled pattern comes so from the filled other, whatever the
/// metavariables are bound to, where laws may be applied in that, too.
pub fn law_filled_steps()
    ensures { (p q : PatternOf Name) → Stepped p q → (bound after : MetaOf Name → BoundOf Name) → ((m : MetaOf Name) → BoundRewritten (bound m) (after m)) →
        (joined : List (List ℕ) → Name) → Rewritten (filled bound joined p) (filled after joined q) }
{}

/// A tree that is rewritten by a rule, and by the rule with a replacement that is a step further: the second comes from the
/// first by laws of rewriting. So each step of a certificate is one for all nodes that the rule's pattern matches.
pub fn law_rewritten_steps()
    ensures { (w : PatternWordsOf Name) (joined : List (List ℕ) → Name) (p q r : PatternOf Name) → Stepped q r → (t : TreeOf Name) →
        Rewritten (rewritten w joined (record { pattern = p; replacement = q }) t)
        (rewritten w joined (record { pattern = p; replacement = r }) t) }
{}

/// The right of each of the ten laws is a step from its left, with its metavariables as parts.
pub fn law_ten_laws()
    ensures { AllByRecursion (λ l. Stepped l.0 l.1) laws }
{}
