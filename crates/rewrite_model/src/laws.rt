// Laws of these texts and lines. Each function does nothing; its contract is the law.
ghost use Rattle.std.specs.Prelude.{◌≡◌, ◌⊎◌, List};
ghost use Rattle.grammar_model.specs.Terminal.{Text};
ghost use Rattle.image_model.specs.Image.{ImageOf};
ghost use Rattle.image_model.specs.Nodes.{Use};
ghost use Rattle.query_model.specs.Lines.{AreLines};
ghost use Rattle.pattern_model.specs.Patterns.{PatternOf};
ghost use Rattle.pattern_model.specs.Matches.{IsLawful};
ghost use Rattle.pattern_model.specs.Rewritten.{RuleOf, IsLawfulRule};
ghost use Rattle.rb_base.specs.Names.{text_eq};
ghost use Rattle.rewrite_model.specs.Saying.{SaysPattern, Cause, IsRefusedPattern, SaysReplacement, SaysRule, IsRefusedReplacement};
ghost use Rattle.rewrite_model.specs.Searched.{matches};
ghost use Rattle.rewrite_model.specs.Rewritten.{rewritten_image};
ghost use Rattle.rewrite_model.specs.Examples.{a_rule, idle_rule, before, after, places};

/// Each text says one pattern, which is lawful, or has one first fault, never both.
pub fn has_one_pattern()
    ensures either { (text : Text) → ((p : PatternOf Text) × SaysPattern text p) ⊎ ((c : Cause) × IsRefusedPattern text c) }
    ensures one { (text : Text) (p q : PatternOf Text) → SaysPattern text p → SaysPattern text q → p ≡ q }
    ensures lawful { (text : Text) (p : PatternOf Text) → SaysPattern text p → IsLawful p }
    ensures refused { (text : Text) (p : PatternOf Text) (c : Cause) → SaysPattern text p → ¬ IsRefusedPattern text c }
    ensures one_cause { (text : Text) (c d : Cause) → IsRefusedPattern text c → IsRefusedPattern text d → c ≡ d }
{}

/// The same of the two texts of a rule.
pub fn has_one_rule()
    ensures either { (p : PatternOf Text) (text : Text) → ((q : PatternOf Text) × SaysReplacement p text q) ⊎ ((c : Cause) × IsRefusedReplacement p text c) }
    ensures lawful { (pattern replacement : Text) (r : RuleOf Text) → SaysRule pattern replacement r → IsLawfulRule text_eq r }
    ensures one { (p : PatternOf Text) (text : Text) (q r : PatternOf Text) → SaysReplacement p text q → SaysReplacement p text r → q ≡ r }
    ensures refused { (p : PatternOf Text) (text : Text) (q : PatternOf Text) (c : Cause) → SaysReplacement p text q → ¬ IsRefusedReplacement p text c }
    ensures one_cause { (p : PatternOf Text) (text : Text) (c d : Cause) → IsRefusedReplacement p text c → IsRefusedReplacement p text d → c ≡ d }
{}

/// Nodes have one list of lines at most.
pub fn has_one_list_of_lines()
    ensures { (i : ImageOf Text) (uses : List Use) (x y : Text) → AreLines i uses x → AreLines i uses y → x ≡ y }
{}

/// In a small image a pattern matches the nodes that stand beside it, and a rule makes the image that stands there: methods of
/// the kernel stay, and so do the texts in which nothing changes. A rule that changes no tree changes no text.
pub fn judges_rewriting_examples()
    ensures matched { matches a_rule.pattern before ≡ places }
    ensures rewritten { rewritten_image a_rule before ≡ after }
    ensures unchanged { rewritten_image idle_rule before ≡ before }
{}
