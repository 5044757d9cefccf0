// Laws of look-ups. Each function does nothing; its contract is the law.
ghost use Rattle.std.specs.Prelude.{◌≡◌, ◌++◌, ℕ, List, [], ◌∷◌, map, filter, nat_eq, if◌then◌else◌};
ghost use Rattle.tree_model.specs.Tree.{SequenceOf, MethodOf};
ghost use Rattle.image_model.specs.Nodes.{Place, NodeOf, nodes_of};
ghost use Rattle.image_model.specs.Uses.{is_sender, identifier_uses_in, places};
ghost use Rattle.use_index.specs.Paths.{at_place, paths};
ghost use Rattle.use_index.specs.Uses.{method_uses, doit_uses};
ghost use Rattle.use_index.specs.declared.uses.Sought.TheVariants as sought;

/// In the row of a method or a do-it stand exactly the uses that the filters of an image find in its code, in their order: the
/// nodes that send a name, what names or declares it, and the method that implements it.
pub fn law_rows()
    ensures method_sent { (names : List (List ℕ)) (place : Place) (m : MethodOf ℕ) (n : ℕ) →
        map (at_place place) (paths n sought.Sent (method_uses names m)) ≡ places (filter (λ (e : NodeOf ℕ). is_sender nat_eq n e.tree) (nodes_of place m.body)) }
    ensures doit_sent { (names : List (List ℕ)) (place : Place) (b : SequenceOf ℕ) (n : ℕ) →
        map (at_place place) (paths n sought.Sent (doit_uses names b)) ≡ places (filter (λ (e : NodeOf ℕ). is_sender nat_eq n e.tree) (nodes_of place b)) }
    ensures method_named { (names : List (List ℕ)) (place : Place) (m : MethodOf ℕ) (n : ℕ) →
        map (at_place place) (paths n sought.Named (method_uses names m)) ≡ identifier_uses_in nat_eq n place (m.arguments ++ m.body.temporaries) m.body }
    ensures doit_named { (names : List (List ℕ)) (place : Place) (b : SequenceOf ℕ) (n : ℕ) →
        map (at_place place) (paths n sought.Named (doit_uses names b)) ≡ identifier_uses_in nat_eq n place b.temporaries b }
    ensures implemented { (names : List (List ℕ)) (m : MethodOf ℕ) (n : ℕ) →
        paths n sought.Implemented (method_uses names m) ≡ (if nat_eq n m.selector then [] ∷ [] else []) }
{}
