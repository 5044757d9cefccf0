// Steps of certificates over texts. Each function does nothing; its contract is the law.
ghost use Rattle.std.specs.Prelude.{◌≡◌, List, ◌∷◌, true, false, option_map};
ghost use Rattle.std.specs.List.{list_all};
ghost use Rattle.tree_model.specs.Tree.{TreeOf, map_names};
ghost use Rattle.token_model.specs.Bytes.{is_digit};
ghost use Rattle.pattern_model.specs.Patterns.{PatternOf};
ghost use Rattle.certified_model.specs.Marks.{Text, Mark, is_unary_mark, plain};
ghost use Rattle.certified_model.specs.Certificates.{turned};
ghost use Rattle.text_steps.specs.TextSteps.{IsNaming, AreSides, turned_texts};
ghost use Rattle.text_steps.specs.MarkTexts.{mark_in, MayStandFor, AreMarks};

/// What a law makes of a node is the same over texts and over the metavariables that they stand for, if what patterns ask of
/// a text is answered as of what it stands for.
#[tactic(auto, using(crate::proofs::TextSteps::turned_mapped))]
pub fn law_text_steps()
    ensures { (mark : Text → Mark) → IsNaming mark → (sides : PatternOf Text × PatternOf Text) → AreSides mark sides → (t : TreeOf Text) →
        option_map (map_names mark) (turned_texts mark sides t) ≡ turned sides (map_names mark t) }
{}

/// A table of texts that stand for metavariables is such a change of names. A letter and a number may stand for a unary
/// selector, and a backquote and a number for any other metavariable.
#[tactic(auto, using(crate::proofs::MarkTexts::names_marks))]
pub fn law_mark_texts()
    ensures table { (ms : List (Text × Mark)) → AreMarks ms → IsNaming (mark_in ms) }
    ensures lettered { (ds : Text) (m : Mark) → list_all is_digit ds ≡ true → is_unary_mark m ≡ true → ((n : Text) → m ≡ plain n → ⊥) → MayStandFor (117 ∷ ds, m) }
    ensures quoted { (ds : Text) (m : Mark) → list_all is_digit ds ≡ true → is_unary_mark m ≡ false → ((n : Text) → m ≡ plain n → ⊥) → MayStandFor (96 ∷ ds, m) }
{}
