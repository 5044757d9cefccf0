// The laws on canonical texts. Each function does nothing; its contract is the law.
ghost use Rattle.std.specs.Prelude.{◌≡◌, ◌↔◌, Bool};
ghost use Rattle.tree_model.specs.Tree.{SequenceOf, MethodOf};
ghost use Rattle.token_model.specs.declared.kind.Dialect.{Dialect};
ghost use Rattle.token_model.specs.declared.kind.Dialect.TheVariants.{Second};
ghost use Rattle.grammar_model.specs.Terminal.{Text};
ghost use Rattle.grammar_model.specs.Whole.{DoIt, Method};
ghost use Rattle.grammar_model.specs.Checks.{Fault};
ghost use Rattle.grammar_model.specs.Spelling.{SpellsDoIt, SpellsMethod, HasFirstFault};
ghost use Rattle.reread_law.specs.WholeTrees.{WellFormedDoIt, WellFormedMethod};
ghost use Rattle.text_model.specs.Whole.{canonical_method, canonical_doit};

/// The canonical text of a tree that some text spells, in either dialect, spells the same tree with
/// the same comments in the second dialect, which has brace arrays; a method stays one of the kernel
/// or of a user.
pub fn spells_the_tree_again()
    ensures doit { (dialect : Dialect) (text : Text) (tree : SequenceOf Text) →
        SpellsDoIt dialect text tree → SpellsDoIt Second (canonical_doit tree) tree }
    ensures method { (dialect : Dialect) (kernel : Bool) (text : Text) (tree : MethodOf Text) →
        SpellsMethod dialect kernel text tree → SpellsMethod Second kernel (canonical_method tree) tree }
{}

/// Such a canonical text has no fault, and trees with one canonical text are one.
pub fn tells_trees_apart()
    ensures no_fault_in_doit { (dialect : Dialect) (text : Text) (tree : SequenceOf Text) (fault : Fault) →
        SpellsDoIt dialect text tree → ¬ HasFirstFault Second DoIt (canonical_doit tree) fault }
    ensures no_fault_in_method { (dialect : Dialect) (kernel : Bool) (text : Text) (tree : MethodOf Text) (fault : Fault) →
        SpellsMethod dialect kernel text tree → ¬ HasFirstFault Second (Method kernel) (canonical_method tree) fault }
    ensures one_doit { (dialect other : Dialect) (text source : Text) (tree copy : SequenceOf Text) →
        SpellsDoIt dialect text tree → SpellsDoIt other source copy → canonical_doit tree ≡ canonical_doit copy → tree ≡ copy }
    ensures one_method { (dialect other : Dialect) (kernel : Bool) (text source : Text) (tree copy : MethodOf Text) →
        SpellsMethod dialect kernel text tree → SpellsMethod other kernel source copy → canonical_method tree ≡ canonical_method copy → tree ≡ copy }
{}

/// A tree is that of some text of the second dialect exactly where it is well formed: names, selectors,
/// literals and comments are spelled as they may be, `super` is a receiver, a return is the last
/// statement, a cascade has two messages, no list declares a name twice, no name is assigned that can
/// not be, the height is at most 200, and a method's comments stand in normal form.
pub fn tells_which_trees_have_a_text()
    ensures doit { (tree : SequenceOf Text) →
        ((text : Text) × SpellsDoIt Second text tree) ↔ WellFormedDoIt tree }
    ensures method { (kernel : Bool) (tree : MethodOf Text) →
        ((text : Text) × SpellsMethod Second kernel text tree) ↔ WellFormedMethod kernel tree }
{}
