// Laws of trees. Each function does nothing; its contract is the law, for all trees over all names.
ghost use Rattle.std.specs.Prelude.{◌≡◌, ℕ, Bool, List, length, Option, Some, None, option_map, option_and_then, Contains, ◌↔◌, ◌++◌, IsTrue};
ghost use Rattle.tree_model.specs.Tree.{TreeOf, SequenceOf, MethodOf, map_names, map_sequence, map_method};
ghost use Rattle.tree_model.specs.AllNames.{AllNames, SequenceNames, MethodNames};
ghost use Rattle.tree_model.specs.Measure.{height, sequence_height, size, sequence_size, method_size};
ghost use Rattle.tree_model.specs.Path.{part_at, part_in, replaced, replaced_in, method_replaced, PartWays};
ghost use Rattle.tree_model.specs.Nodes.{nodes, map_placed, Placed};
ghost use Rattle.tree_model.specs.Bare.{bare, bare_method, SameBareMethod};
ghost use Rattle.tree_model.specs.Normal.{normal, IsNormal};

/// Names are changed one by one: a change to the same names is none, two changes are one, and only the names in a
/// tree count.
pub fn law_names<K, M, N>()
    ensures unchanged { (m : MethodOf K) → map_method (λ n. n) m ≡ m }
    ensures twice { (g : M → N) (f : K → M) (m : MethodOf K) →
        map_method g (map_method f m) ≡ map_method (λ n. g (f n)) m }
    ensures same { (f g : K → M) (m : MethodOf K) →
        MethodNames (λ n. f n ≡ g n) m → map_method f m ≡ map_method g m }
    ensures of_changed { (p : M → Bool) (f : K → M) (m : MethodOf K) →
        MethodNames (λ n. IsTrue (p n)) (map_method f m) ↔ MethodNames (λ n. IsTrue (p (f n))) m }
{}

/// Neither names nor comments count in the height and the size of a tree.
pub fn law_heights<M, N>()
    ensures height_named { (f : M → N) (t : TreeOf M) → height (map_names f t) ≡ height t }
    ensures size_named { (f : M → N) (t : TreeOf M) → size (map_names f t) ≡ size t }
    ensures height_bare { (t : TreeOf M) → height (bare t) ≡ height t }
    ensures size_bare { (t : TreeOf M) → size (bare t) ≡ size t }
{}

/// A path in two pieces leads where the second piece leads from where the first leads.
pub fn law_parts<N>()
    ensures { (t : TreeOf N) (path rest : List ℕ) →
        part_at t (path ++ rest) ≡ option_and_then (λ c. part_at c rest) (part_at t path) }
{}

/// Paths and replacement go along with a change of names.
pub fn law_parts_named<M, N>()
    ensures part { (f : M → N) (b : SequenceOf M) (path : List ℕ) →
        part_in (map_sequence f b) path ≡ option_map (map_names f) (part_in b path) }
    ensures replaced { (f : M → N) (m : MethodOf M) (path : List ℕ) (u : TreeOf M) →
        method_replaced (map_method f m) path (map_names f u) ≡ map_method f (method_replaced m path u) }
{}

/// All nodes of a sequence with their paths: a node stands there with a path exactly where the path leads to it, and
/// there are as many as the size says.
pub fn law_nodes<N>()
    ensures members { (b : SequenceOf N) (path : List ℕ) (t : TreeOf N) →
        Contains (nodes b) (path, t) ↔ (part_in b path ≡ Some t) }
    ensures count { (b : SequenceOf N) → length (nodes b) ≡ sequence_size b }
{}

/// The nodes keep their paths where names are changed.
pub fn law_nodes_named<M, N>()
    ensures { (f : M → N) (b : SequenceOf M) → nodes (map_sequence f b) ≡ map_placed f (nodes b) }
{}

/// A part of a tree is replaced.
pub fn law_replaced<N>()
    ensures found { (t : TreeOf N) (path : List ℕ) (c u : TreeOf N) →
        part_at t path ≡ Some c → part_at (replaced t path u) path ≡ Some u }
    ensures last { (t : TreeOf N) (path : List ℕ) (u v : TreeOf N) →
        replaced (replaced t path u) path v ≡ replaced t path v }
    ensures by_itself { (t : TreeOf N) (path : List ℕ) (c : TreeOf N) →
        part_at t path ≡ Some c → replaced t path c ≡ t }
    ensures nowhere { (t : TreeOf N) (path : List ℕ) (u : TreeOf N) →
        part_at t path ≡ None → replaced t path u ≡ t }
    ensures others { (t : TreeOf N) (path other : List ℕ) (u : TreeOf N) →
        PartWays path other → part_at (replaced t path u) other ≡ part_at t other }
    ensures inside { (t : TreeOf N) (path rest : List ℕ) (c u : TreeOf N) →
        part_at t path ≡ Some c → replaced t (path ++ rest) u ≡ replaced t path (replaced c rest u) }
{}

/// A part of a sequence is replaced.
pub fn law_replaced_in<N>()
    ensures found { (b : SequenceOf N) (path : List ℕ) (c u : TreeOf N) →
        part_in b path ≡ Some c → part_in (replaced_in b path u) path ≡ Some u }
    ensures last { (b : SequenceOf N) (path : List ℕ) (u v : TreeOf N) →
        replaced_in (replaced_in b path u) path v ≡ replaced_in b path v }
    ensures by_itself { (b : SequenceOf N) (path : List ℕ) (c : TreeOf N) →
        part_in b path ≡ Some c → replaced_in b path c ≡ b }
    ensures nowhere { (b : SequenceOf N) (path : List ℕ) (u : TreeOf N) →
        part_in b path ≡ None → replaced_in b path u ≡ b }
    ensures others { (b : SequenceOf N) (path other : List ℕ) (u : TreeOf N) →
        PartWays path other → part_in (replaced_in b path u) other ≡ part_in b other }
{}

/// Comments that are taken away are gone, whatever the names.
pub fn law_bare<M, N>()
    ensures gone { (t : TreeOf M) → bare (bare t) ≡ bare t }
    ensures named { (f : M → N) (m : MethodOf M) → bare_method (map_method f m) ≡ map_method f (bare_method m) }
{}

/// The normal form of a method's comments is normal, is the method itself where that is normal, differs from it in
/// comments alone, and goes along with a change of names.
pub fn law_normal<M, N>()
    ensures is { (m : MethodOf M) → IsNormal (normal m) }
    ensures stays { (m : MethodOf M) → IsNormal m → normal m ≡ m }
    ensures bare { (m : MethodOf M) → SameBareMethod (normal m) m }
    ensures named { (f : M → N) (m : MethodOf M) → normal (map_method f m) ≡ map_method f (normal m) }
{}
