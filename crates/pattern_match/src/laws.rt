// The law of numbers. The function does nothing; its contract is the law, for all tables, patterns and code.
ghost use Rattle.std.specs.Prelude.{◌≡◌, ◌<◌, ℕ, List, map, length, option_map};
ghost use Rattle.rb_base.specs.Names.{name_at, HasNoTwice};
ghost use Rattle.tree_model.specs.Tree.{TreeOf, SequenceOf, map_names, map_sequence};
ghost use Rattle.tree_model.specs.AllNames.{AllNames, SequenceNames};
ghost use Rattle.pattern_model.specs.Patterns.{PatternOf};
ghost use Rattle.pattern_model.specs.Words.{text_pattern_words};
ghost use Rattle.pattern_model.specs.MatchTree.{match_tree};
ghost use Rattle.pattern_model.specs.Search.{all_matches};
ghost use Rattle.pattern_model.specs.Named.{map_pattern, map_binding};
ghost use Rattle.patterns.specs.Names.{PatternNames};
ghost use Rattle.pattern_match.specs.Words.{number_words};

/// Where a table has no text twice, and all numbers of a pattern and of code are of the table: the match of the texts is
/// that of the numbers, and so are the places where the pattern matches.
pub fn law_numbers()
    ensures matched { (names : List (List ℕ)) (p : PatternOf ℕ) (t : TreeOf ℕ) → HasNoTwice names →
        PatternNames (λ n. n < length names) p → AllNames (λ n. n < length names) t →
        match_tree text_pattern_words (map_pattern (name_at names) p) (map_names (name_at names) t)
        ≡ option_map (map (map_binding (name_at names))) (match_tree (number_words names) p t) }
    ensures searched { (names : List (List ℕ)) (p : PatternOf ℕ) (b : SequenceOf ℕ) → HasNoTwice names →
        PatternNames (λ n. n < length names) p → SequenceNames (λ n. n < length names) b →
        all_matches text_pattern_words (map_pattern (name_at names) p) (map_sequence (name_at names) b)
        ≡ all_matches (number_words names) p b }
{}
