// Laws of the program's trees. Each function does nothing; its contract is the law.
ghost use Rattle.std.specs.Prelude.{◌≡◌, ℕ, List, Some};
ghost use Rattle.tree_model.specs.Tree.{TreeOf, SequenceOf, MethodOf};
ghost use Rattle.tree_model.specs.Path.{part_in, replaced_in, method_replaced};
ghost use Rattle.st_tree.specs.View.{sequence_of, method_of, sequence_from, method_from};
ghost use Rattle.st_tree.specs.declared.tree.Method.{Method};
ghost use Rattle.st_tree.specs.declared.tree.Sequence.{Sequence};

/// Nothing is lost between the program's methods and the abstract ones.
pub fn law_views()
    ensures method { (m : Method) → method_from (method_of m) ≡ m }
    ensures abstract_method { (m : MethodOf ℕ) → method_of (method_from m) ≡ m }
    ensures body { (b : Sequence) → sequence_from (sequence_of b) ≡ b }
    ensures abstract_body { (b : SequenceOf ℕ) → sequence_of (sequence_from b) ≡ b }
{}

/// A second replacement by the old part restores the method or do-it.
pub fn law_restored()
    ensures method { (before between after : Method) (path : List ℕ) (old part : TreeOf ℕ) →
        part_in (method_of before).body path ≡ Some old →
        method_of between ≡ method_replaced (method_of before) path part →
        method_of after ≡ method_replaced (method_of between) path old →
        after ≡ before }
    ensures doit { (before between after : Sequence) (path : List ℕ) (old part : TreeOf ℕ) →
        part_in (sequence_of before) path ≡ Some old →
        sequence_of between ≡ replaced_in (sequence_of before) path part →
        sequence_of after ≡ replaced_in (sequence_of between) path old →
        after ≡ before }
{}
