// The tables. Each function does nothing; its contract is that the definition gives each row's text.
ghost use Rattle.std.specs.Prelude.{◌≡◌, map};
ghost use Rattle.text_model.specs.Whole.{canonical_method, canonical_doit};
ghost use Rattle.text_examples.specs.Trees.{DoItRow, MethodRow};
ghost use Rattle.text_examples.specs.DoIts.{doits};
ghost use Rattle.text_examples.specs.Methods.{methods, with_primitive};

/// The do-its of the table have the canonical texts that stand beside them.
pub fn writes_doits()
    ensures { map (λ (row : DoItRow). canonical_doit row.tree) doits ≡ map (λ (row : DoItRow). row.text) doits }
{}

/// The methods of the table have the canonical texts that stand beside them, and so has the one with
/// a primitive.
pub fn writes_methods()
    ensures methods { map (λ (row : MethodRow). canonical_method row.tree) methods ≡ map (λ (row : MethodRow). row.text) methods }
    ensures primitive { canonical_method with_primitive.tree ≡ with_primitive.text }
{}
