// The laws. Each function does nothing; its contract is the law.
ghost use Rattle.std.specs.Prelude.{◌≡◌, ◌≤◌, true, false, List};
ghost use Rattle.std.specs.List.{concat};
ghost use Rattle.tree_model.specs.Tree.{SequenceOf, MethodOf};
ghost use Rattle.tree_model.specs.Measure.{sequence_height};
ghost use Rattle.token_model.specs.declared.kind.Dialect.TheVariants.{Second};
ghost use Rattle.grammar_model.specs.Spanned.{SpannedTree, plain_tree};
ghost use Rattle.grammar_model.specs.Spelling.{SpellsPatternAt};
ghost use Rattle.reread_law.specs.WholeTrees.{WellFormedDoIt, WellFormedMethod};
ghost use Rattle.pattern_model.specs.Words.{text_pattern_words};
ghost use Rattle.pattern_model.specs.Matches.{IsLawful};
ghost use Rattle.pattern_model.specs.Spelled.{pattern_of};
ghost use Rattle.pattern_model.specs.Rewritten.{RuleOf, rewritten_sequence, rewritten_method};
ghost use Rattle.certified_model.specs.Marks.{Text};
ghost use Rattle.certified_model.specs.Certificates.{CertStep, derives};
ghost use Rattle.rule_kept.specs.PatternComments.{HasComments};

use pattern_laws::law_text_words;

/// A method or do-it that is well formed stays so when a rule rewrites it that a certificate derives, where the pattern of the
/// rule is lawful, the comments in its replacement are comments, and what it becomes is at most 200 high.
pub fn law_rule_trees()
    ensures method { (r : RuleOf Text) (xs : List CertStep) (m : MethodOf Text) → IsLawful r.pattern → HasComments r.replacement → derives xs r.pattern r.replacement ≡ true →
        WellFormedMethod false m → sequence_height (rewritten_method text_pattern_words concat r m).body ≤ 200 →
        WellFormedMethod false (rewritten_method text_pattern_words concat r m) }
    ensures doit { (r : RuleOf Text) (xs : List CertStep) (b : SequenceOf Text) → IsLawful r.pattern → HasComments r.replacement → derives xs r.pattern r.replacement ≡ true →
        WellFormedDoIt b → sequence_height (rewritten_sequence text_pattern_words concat r b) ≤ 200 →
        WellFormedDoIt (rewritten_sequence text_pattern_words concat r b) }
{
    law_text_words();
}

/// The comments in the blocks of a pattern that a text spells are comments.
pub fn law_spelled_comments()
    ensures { (text : Text) (tree : SpannedTree) → SpellsPatternAt Second text tree → HasComments (pattern_of (plain_tree tree)) }
{}
