// Laws of patterns. Each function does nothing; its contract is the law, for all patterns over all names.
ghost use Rattle.std.specs.Prelude.{◌≡◌, ◌↔◌, ℕ, List, [], map, Some, None, option_map};
ghost use Rattle.std.specs.List.{AllByRecursion, concat};
ghost use Rattle.tree_model.specs.Tree.{TreeOf, SequenceOf, MethodOf, map_names, map_sequence};
ghost use Rattle.pattern_model.specs.Patterns.{PatternOf};
ghost use Rattle.pattern_model.specs.Bindings.{BindingOf, bare_binding, bare_bound, bound_of};
ghost use Rattle.pattern_model.specs.Words.{PatternWordsOf, AreWords, text_pattern_words};
ghost use Rattle.pattern_model.specs.Matches.{Matches, IsLawful};
ghost use Rattle.pattern_model.specs.MatchTree.{PlaceOf, match_places, match_tree, bindings_of};
ghost use Rattle.pattern_model.specs.Fill.{AreBound};
ghost use Rattle.pattern_model.specs.Search.{found, found_by, all_matches};
ghost use Rattle.pattern_model.specs.Rewritten.{RuleOf, IsLawfulRule, each_doubled, rewritten, rewritten_by, rewritten_sequence, rewritten_method};
ghost use Rattle.pattern_model.specs.Named.{map_pattern, map_binding, asked_through};
ghost use Rattle.tree_model.specs.Normal.{IsNormal};
ghost use Rattle.tree_model.specs.Path.{part_in};

/// A lawful pattern has one list of bindings at most that fills it to a node, comments aside, and it is the one that is
/// found. There is none exactly where no bindings fill the pattern to the node. Each metavariable is bound to what stands at
/// each of its places, comments aside.
pub fn law_match<N>()
    ensures fills { (w : PatternWordsOf N) (joined : List (List ℕ) → N) → AreWords w joined →
        (p : PatternOf N) (t : TreeOf N) → IsLawful p →
        (bs : List (BindingOf N)) → match_tree w p t ≡ Some bs → Matches w joined p t bs }
    ensures one { (w : PatternWordsOf N) (joined : List (List ℕ) → N) → AreWords w joined →
        (p : PatternOf N) (t : TreeOf N) → IsLawful p → (cs : List (BindingOf N)) → Matches w joined p t cs →
        (bs : List (BindingOf N)) × (match_tree w p t ≡ Some bs) × (map bare_binding bs ≡ map bare_binding cs) }
    ensures none { (w : PatternWordsOf N) (joined : List (List ℕ) → N) → AreWords w joined →
        (p : PatternOf N) (t : TreeOf N) → IsLawful p →
        ((match_tree w p t ≡ None) ↔ ((bs : List (BindingOf N)) → Matches w joined p t bs → ⊥)) }
    ensures equal_parts { (w : PatternWordsOf N) (joined : List (List ℕ) → N) → AreWords w joined →
        (p : PatternOf N) (t : TreeOf N) → IsLawful p → (xs : List (PlaceOf N)) → match_places w p t ≡ Some xs →
        AllByRecursion (λ x. bare_bound (bound_of w.tests.same (bindings_of w xs) x.meta) ≡ bare_bound x.bound) xs }
{}

/// Texts are such names, with keywords joined as texts are.
pub fn law_text_words()
    ensures { AreWords text_pattern_words concat }
{}

/// The search, and the rewriting, in one step: at a node that matches they go on in the parts of doubled metavariables, and
/// else in the nodes right below it. Each path that is found leads to a node that matches; where none is found nothing is
/// rewritten. A method whose comments are in normal form keeps them so.
pub fn law_rewritten<N>()
    ensures found { (w : PatternWordsOf N) (p : PatternOf N) (t : TreeOf N) →
        found w p t ≡ found_by (found w p) p t (match_places w p t) }
    ensures rewritten { (w : PatternWordsOf N) (joined : List (List ℕ) → N) (r : RuleOf N) (t : TreeOf N) →
        rewritten w joined r t ≡ rewritten_by w joined r (rewritten w joined r) t (match_places w r.pattern t) }
    ensures matches { (w : PatternWordsOf N) (p : PatternOf N) (b : SequenceOf N) → AllByRecursion (λ path.
        (t : TreeOf N) × (bs : List (BindingOf N)) × (part_in b path ≡ Some t) × (match_tree w p t ≡ Some bs)) (all_matches w p b) }
    ensures stays { (w : PatternWordsOf N) (joined : List (List ℕ) → N) (r : RuleOf N) (b : SequenceOf N) →
        all_matches w r.pattern b ≡ [] → rewritten_sequence w joined r b ≡ b }
    ensures normal { (w : PatternWordsOf N) (joined : List (List ℕ) → N) (r : RuleOf N) (m : MethodOf N) →
        IsNormal m → IsNormal (rewritten_method w joined r m) }
{}

/// Where names are asked through a change of them, as numbers are through their texts, a match and a search are those of the
/// changed pattern in the changed code.
pub fn law_named<M, N>()
    ensures matched { (f : M → N) (w : PatternWordsOf N) (p : PatternOf M) (t : TreeOf M) →
        match_tree w (map_pattern f p) (map_names f t) ≡ option_map (map (map_binding f)) (match_tree (asked_through f w) p t) }
    ensures searched { (f : M → N) (w : PatternWordsOf N) (p : PatternOf M) (b : SequenceOf M) →
        all_matches w (map_pattern f p) (map_sequence f b) ≡ all_matches (asked_through f w) p b }
    ensures fills { (f : M → N) (w : PatternWordsOf N) (joined : List (List ℕ) → N) → AreWords w joined →
        (p : PatternOf M) (t : TreeOf M) → IsLawful p →
        (bs : List (BindingOf M)) → match_tree (asked_through f w) p t ≡ Some bs →
        Matches w joined (map_pattern f p) (map_names f t) (map (map_binding f) bs) }
    ensures none { (f : M → N) (w : PatternWordsOf N) (joined : List (List ℕ) → N) → AreWords w joined →
        (p : PatternOf M) (t : TreeOf M) → IsLawful p → ((match_tree (asked_through f w) p t ≡ None) ↔
        ((cs : List (BindingOf N)) → Matches w joined (map_pattern f p) (map_names f t) cs → ⊥)) }
{}

/// A pattern is filled by the bindings of a match with nothing left open, and so is the replacement of a lawful rule,
/// however the parts of doubled metavariables are rewritten before.
pub fn law_filled<N>()
    ensures pattern { (w : PatternWordsOf N) (joined : List (List ℕ) → N) → AreWords w joined →
        (p : PatternOf N) (t : TreeOf N) (bs : List (BindingOf N)) → Matches w joined p t bs → AreBound w.tests.same bs p }
    ensures replacement { (w : PatternWordsOf N) (joined : List (List ℕ) → N) → AreWords w joined →
        (r : RuleOf N) → IsLawfulRule w.tests.same r →
        (t : TreeOf N) (xs : List (PlaceOf N)) → match_places w r.pattern t ≡ Some xs → (f : TreeOf N → TreeOf N) →
        AreBound w.tests.same (map (each_doubled f) (bindings_of w xs)) r.replacement }
{}
