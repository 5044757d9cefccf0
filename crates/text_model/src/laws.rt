// Laws of canonical texts. Each function does nothing; its contract is the law.
ghost use Rattle.std.specs.Prelude.{◌≡◌, ℕ, ◌<◌, true, false, List, length, slice_index};
ghost use Rattle.token_model.specs.Bytes.{is_blank};
ghost use Rattle.tree_model.specs.Tree.{SequenceOf, MethodOf, map_sequence, map_method};
ghost use Rattle.tree_model.specs.AllNames.{SequenceNames, MethodNames};
ghost use Rattle.text_model.specs.Literals.{is_selector};
ghost use Rattle.text_model.specs.Whole.{canonical_method, canonical_doit};

/// The canonical text of a method is not empty and begins with no blank, where the method's selector is one.
pub fn begins_with_no_blank()
    ensures some { (m : MethodOf (List ℕ)) →
        is_selector m.selector ≡ true → 0 < length (canonical_method m) }
    ensures no_blank { (m : MethodOf (List ℕ)) →
        is_selector m.selector ≡ true → is_blank (slice_index (canonical_method m) 0) ≡ false }
{}

/// The canonical text depends on the texts of the names in a tree alone: names that are changed, and then read as the
/// same texts, give the same text.
pub fn depends_on_texts_alone<M, N>()
    ensures methods { (h : M → N) (f : M → List ℕ) (g : N → List ℕ) (m : MethodOf M) →
        MethodNames (λ n. g (h n) ≡ f n) m →
        canonical_method (map_method g (map_method h m)) ≡ canonical_method (map_method f m) }
    ensures doits { (h : M → N) (f : M → List ℕ) (g : N → List ℕ) (b : SequenceOf M) →
        SequenceNames (λ n. g (h n) ≡ f n) b →
        canonical_doit (map_sequence g (map_sequence h b)) ≡ canonical_doit (map_sequence f b) }
{}
