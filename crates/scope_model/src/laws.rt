// Laws of scopes. Each function does nothing; its contract is the law, for all trees over all names.
ghost use Rattle.std.specs.Prelude.{◌≡◌, ◌<◌, ℕ, Bool, List, length, map, IsTrue};
ghost use Rattle.std.specs.List.{AllByRecursion};
ghost use Rattle.rb_base.specs.Names.{HasNoTwice, name_at};
ghost use Rattle.tree_model.specs.Tree.{TreeOf, StatementsOf, SequenceOf, MethodOf, map_names, map_statements, map_sequence, map_method};
ghost use Rattle.tree_model.specs.AllNames.{AllNames, StatementsNames, SequenceNames, MethodNames};
ghost use Rattle.scope_model.specs.Control.{is_control};
ghost use Rattle.scope_model.specs.Scope.{local_in, local_in_doit};
ghost use Rattle.scope_model.specs.FreeNames.{free_names, free_names_of_run, free_occurrences};
ghost use Rattle.scope_model.specs.Uses.{uses, assigned_in_closure, assigned_in_closure_doit};
ghost use Rattle.scope_model.specs.NameTests.{NameTests, KeepsAnswers, number_tests, text_tests};

/// What a name stands for is kept where names are changed one to one, pseudo-variables to pseudo-variables. So a tree
/// may be read over the numbers of its names or over their texts.
pub fn law_local_named<M, N>()
    ensures method { (f : M → N) (p : M → Bool) (a : NameTests M) (b : NameTests N) (m : MethodOf M) (path : List ℕ) (n : M) →
        KeepsAnswers (λ k. IsTrue (p k)) f a b → MethodNames (λ k. IsTrue (p k)) m → IsTrue (p n) →
        local_in b.same b.is_pseudo (map_method f m) path (f n) ≡ local_in a.same a.is_pseudo m path n }
    ensures doit { (f : M → N) (p : M → Bool) (a : NameTests M) (b : NameTests N) (m : SequenceOf M) (path : List ℕ) (n : M) →
        KeepsAnswers (λ k. IsTrue (p k)) f a b → SequenceNames (λ k. IsTrue (p k)) m → IsTrue (p n) →
        local_in_doit b.same b.is_pseudo (map_sequence f m) path (f n) ≡ local_in_doit a.same a.is_pseudo m path n }
{}

/// The free names of a part are changed with the names of the part.
pub fn law_free_names_named<M, N>()
    ensures expression { (f : M → N) (p : M → Bool) (a : NameTests M) (b : NameTests N) (t : TreeOf M) →
        KeepsAnswers (λ k. IsTrue (p k)) f a b → AllNames (λ k. IsTrue (p k)) t →
        free_names b.same b.is_pseudo (map_names f t) ≡ map f (free_names a.same a.is_pseudo t) }
    ensures run { (f : M → N) (p : M → Bool) (a : NameTests M) (b : NameTests N) (ss : StatementsOf M) →
        KeepsAnswers (λ k. IsTrue (p k)) f a b → StatementsNames (λ k. IsTrue (p k)) ss →
        free_names_of_run b.same b.is_pseudo (map_statements f ss) ≡ map f (free_names_of_run a.same a.is_pseudo ss) }
{}

/// A control send stays one where names are changed.
pub fn law_control_named<M, N>()
    ensures { (f : M → N) (p : M → Bool) (a : NameTests M) (b : NameTests N) (t : TreeOf M) →
        KeepsAnswers (λ k. IsTrue (p k)) f a b → AllNames (λ k. IsTrue (p k)) t →
        is_control b.form (map_names f t) ≡ is_control a.form t }
{}

/// An assignment that stands in a closure stands in one where names are changed.
pub fn law_closures_named<M, N>()
    ensures method { (f : M → N) (p : M → Bool) (a : NameTests M) (b : NameTests N) (m : MethodOf M) (path : List ℕ) (n : M) →
        KeepsAnswers (λ k. IsTrue (p k)) f a b → MethodNames (λ k. IsTrue (p k)) m → IsTrue (p n) →
        assigned_in_closure b.same b.is_pseudo b.form (map_method f m) path (f n) ≡ assigned_in_closure a.same a.is_pseudo a.form m path n }
    ensures doit { (f : M → N) (p : M → Bool) (a : NameTests M) (b : NameTests N) (m : SequenceOf M) (path : List ℕ) (n : M) →
        KeepsAnswers (λ k. IsTrue (p k)) f a b → SequenceNames (λ k. IsTrue (p k)) m → IsTrue (p n) →
        assigned_in_closure_doit b.same b.is_pseudo b.form (map_sequence f m) path (f n) ≡ assigned_in_closure_doit a.same a.is_pseudo a.form m path n }
{}

/// The number of a name in a table answers what its text answers.
pub fn law_numbers()
    ensures { (names : List (List ℕ)) → HasNoTwice names →
        KeepsAnswers (λ n. n < length names) (name_at names) (number_tests names) text_tests }
{}

/// The uses of names in a tree are its free names, each as often as it occurs.
pub fn law_uses<N>()
    ensures { (a : NameTests N) (in_place : Bool) (t : TreeOf N) →
        map (λ u. u.name) (uses a.same a.is_pseudo a.form in_place t) ≡ free_occurrences a.same a.is_pseudo t }
{}
