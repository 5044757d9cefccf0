// Laws of what is read. Each function does nothing; its contract is the law.
ghost use Rattle.std.specs.Prelude.{◌≡◌, ◌↔◌, ℕ, nat_eq, Bool, true, false, List, [], ◌∷◌, length, Some, None};
ghost use Rattle.token_model.specs.declared.kind.Dialect.TheVariants.{Second};
ghost use Rattle.grammar_model.specs.Terminal.{Text};
ghost use Rattle.grammar_model.specs.Spanned.{SpannedTree, plain_tree};
ghost use Rattle.grammar_model.specs.Spelling.{SpellsPatternAt};
ghost use Rattle.pattern_model.specs.Patterns.{PatternOf, metas};
ghost use Rattle.pattern_model.specs.Matches.{IsLawful};
ghost use Rattle.pattern_model.specs.Named.{map_pattern};
ghost use Rattle.pattern_model.specs.Rewritten.{IsLawfulRule};
ghost use Rattle.pattern_model.specs.Spelled as model;
ghost use Rattle.pattern_trees.specs.Faults.{two_lists, meta_places, unbound_in_replacement, twice_doubled};
ghost use Rattle.pattern_trees.specs.FaultExamples.{lists, lists_apart, message_tokens, keyword_tokens, name, pair};

/// What a text spells as a pattern is a lawful pattern exactly where no sequence in it has a second list of statements.
/// So many metavariables it has as its tokens have places for, in the order of the text.
pub fn law_read()
    ensures lawful { (text : Text) (tree : SpannedTree) → SpellsPatternAt Second text tree →
        ((two_lists tree ≡ None) ↔ IsLawful (model.pattern_of (plain_tree tree))) }
    ensures placed { (text : Text) (tree : SpannedTree) → (s : SpellsPatternAt Second text tree) →
        length (meta_places false s.tokens) ≡ length (metas (model.pattern_of (plain_tree tree))) }
{}

/// A pattern of names is lawful where the pattern of what they are changed to is, as that of numbers by their texts.
pub fn law_unnamed<M, N>()
    ensures { (f : M → N) (p : PatternOf M) → IsLawful (map_pattern f p) → IsLawful p }
{}

/// A rule of two lawful patterns is lawful exactly where the replacement has no metavariable that the pattern does not have,
/// and none twice that the pattern doubles somewhere.
pub fn law_rule<N>()
    ensures { (same : N → N → Bool) (p q : PatternOf N) (places : List ℕ) → IsLawful p → IsLawful q →
        (((unbound_in_replacement same p q places ≡ None) × (twice_doubled same p q places ≡ None)) ↔
        IsLawfulRule same (record { pattern = p; replacement = q })) }
{}

/// Faults and places in examples.
pub fn law_fault_examples()
    ensures second_list { two_lists lists ≡ Some 10 }
    ensures one_list_each { two_lists lists_apart ≡ None }
    ensures message { meta_places false message_tokens ≡ 0 ∷ 3 ∷ [] }
    ensures keyword { meta_places false keyword_tokens ≡ 0 ∷ 3 ∷ 7 ∷ [] }
    ensures unbound { unbound_in_replacement nat_eq (name true 1) (pair 1 2) (0 ∷ 5 ∷ []) ≡ Some 5 }
    ensures bound { unbound_in_replacement nat_eq (name true 1) (pair 1 1) (0 ∷ 5 ∷ []) ≡ None }
    ensures twice { twice_doubled nat_eq (name true 1) (pair 1 1) (0 ∷ 5 ∷ []) ≡ Some 5 }
    ensures not_doubled { twice_doubled nat_eq (name false 1) (pair 1 1) (0 ∷ 5 ∷ []) ≡ None }
{}
