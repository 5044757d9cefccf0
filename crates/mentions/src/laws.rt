// Laws of the names that code mentions. Each function does nothing; its contract is the law, for all names.
ghost use Rattle.std.specs.Prelude.{◌≡◌, ◌↔◌, ℕ, Bool, List, [], map, filter, Some, All, Contains, IsTrue, if◌then◌else◌};
ghost use Rattle.tree_model.specs.Tree.{TreeOf, SequenceOf, MethodOf, map_sequence, map_method};
ghost use Rattle.tree_model.specs.AllNames.{SequenceNames, MethodNames};
ghost use Rattle.tree_model.specs.Nodes.{nodes};
ghost use Rattle.image_model.specs.Nodes.{Place, NodeOf, nodes_of};
ghost use Rattle.image_model.specs.Uses.{name_used, is_sender, is_declarer, is_identifier_use};
ghost use Rattle.mentions.specs.Mentions.{own_names, code_names, method_names};

/// The lists are complete, and name nothing else: a test passes at each name that stands in the code exactly where it
/// passes at each name of the list.
pub fn law_complete<N>()
    ensures sequence { (p : N → Bool) (b : SequenceOf N) →
        SequenceNames (λ n. IsTrue (p n)) b ↔ All (λ n. IsTrue (p n)) (code_names b) }
    ensures method { (p : N → Bool) (m : MethodOf N) →
        MethodNames (λ n. IsTrue (p n)) m ↔ All (λ n. IsTrue (p n)) (method_names m) }
    ensures listed_in_sequence { (b : SequenceOf N) → SequenceNames (Contains (code_names b)) b }
    ensures listed_in_method { (m : MethodOf N) → MethodNames (Contains (method_names m)) m }
{}

/// The lists go along with a change of names.
pub fn law_names_changed<M, N>()
    ensures sequence { (f : M → N) (b : SequenceOf M) → code_names (map_sequence f b) ≡ map f (code_names b) }
    ensures method { (f : M → N) (m : MethodOf M) → method_names (map_method f m) ≡ map f (method_names m) }
{}

/// What a node reads, assigns, sends or declares is listed, and so is what stands in it in any other way.
pub fn law_listed<N>()
    ensures own { (b : SequenceOf N) (path : List ℕ) (t : TreeOf N) (n : N) →
        Contains (nodes b) (path, t) → Contains (own_names t) n → Contains (code_names b) n }
    ensures used { (b : SequenceOf N) (path : List ℕ) (t : TreeOf N) (n : N) →
        Contains (nodes b) (path, t) → name_used t ≡ Some n → Contains (code_names b) n }
    ensures sent { (same : N → N → Bool) (b : SequenceOf N) (path : List ℕ) (t : TreeOf N) (s : N) →
        ((j k : N) → IsTrue (same j k) → j ≡ k) →
        Contains (nodes b) (path, t) → IsTrue (is_sender same s t) → Contains (code_names b) s }
    ensures declared { (same : N → N → Bool) (b : SequenceOf N) (path : List ℕ) (t : TreeOf N) (n : N) →
        ((j k : N) → IsTrue (same j k) → j ≡ k) →
        Contains (nodes b) (path, t) → IsTrue (is_declarer same n t) → Contains (code_names b) n }
    ensures in_method { (m : MethodOf N) (n : N) → Contains (code_names m.body) n → Contains (method_names m) n }
{}

/// Where a name is not listed, no node is found by it: none passes a test that passes only where the name stands in the
/// node itself, none sends it, and none names or declares it. So what is found in an image stands where it is listed.
pub fn law_unlisted<N>()
    ensures nowhere { (test : NodeOf N → Bool) (place : Place) (b : SequenceOf N) (n : N) →
        ((e : NodeOf N) → IsTrue (test e) → Contains (own_names e.tree) n) →
        ¬ Contains (code_names b) n → filter test (nodes_of place b) ≡ [] }
    ensures senders { (same : N → N → Bool) (place : Place) (b : SequenceOf N) (s : N) →
        ((j k : N) → IsTrue (same j k) → j ≡ k) →
        ¬ Contains (code_names b) s → filter (λ (e : NodeOf N). is_sender same s e.tree) (nodes_of place b) ≡ [] }
    ensures identifiers { (same : N → N → Bool) (place : Place) (b : SequenceOf N) (n : N) →
        ((j k : N) → IsTrue (same j k) → j ≡ k) →
        ¬ Contains (code_names b) n → filter (λ (e : NodeOf N). is_identifier_use same n e.tree) (nodes_of place b) ≡ [] }
{}

/// Code that does not mention a name is the same after the name is changed.
pub fn law_unmentioned<N>()
    ensures sequence { (same : N → N → Bool) (b : SequenceOf N) (old new : N) →
        ((j k : N) → IsTrue (same j k) → j ≡ k) →
        ¬ Contains (code_names b) old → map_sequence (λ n. if same n old then new else n) b ≡ b }
    ensures method { (same : N → N → Bool) (m : MethodOf N) (old new : N) →
        ((j k : N) → IsTrue (same j k) → j ≡ k) →
        ¬ Contains (method_names m) old → map_method (λ n. if same n old then new else n) m ≡ m }
{}
