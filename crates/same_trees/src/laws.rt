// The law of equal trees. The function does nothing; its contract is the law, for all trees over all names.
ghost use Rattle.std.specs.Prelude.{◌≡◌, Bool, true, ◌↔◌};
ghost use Rattle.tree_model.specs.Tree.{TreeOf};
ghost use Rattle.tree_model.specs.Bare.{SameBare};
ghost use Rattle.same_trees.specs.SameTrees.{same_tree};

/// Where names are told apart, the test of trees tells whether they are equal but for their comments.
pub fn law_same_trees<N>()
    ensures told { (same : N → N → Bool) → ((n : N) → same n n ≡ true) → ((m n : N) → same m n ≡ true → m ≡ n) →
        (t u : TreeOf N) → ((same_tree same t u ≡ true) ↔ SameBare t u) }
{}
