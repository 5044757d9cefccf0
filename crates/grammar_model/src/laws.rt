ghost use Rattle.std.specs.Prelude.{◌≡◌, ◌⊎◌, ◌↔◌, ◌≤◌, ℕ, Bool, false, List, [], Option, Some, None, option_map};
ghost use Rattle.tree_model.specs.Tree.{TreeOf, SequenceOf, MethodOf};
ghost use Rattle.tree_model.specs.Measure.{sequence_height};
ghost use Rattle.tree_model.specs.Normal.{IsNormal};
ghost use Rattle.tree_model.specs.Path.{part_in};
ghost use Rattle.token_model.specs.declared.kind.Dialect.{Dialect};
ghost use Rattle.token_model.specs.declared.kind.Dialect.TheVariants.{First, Second};
ghost use Rattle.grammar_model.specs.Terminal.{Text};
ghost use Rattle.grammar_model.specs.Input.{Lexeme, IsEnded};
ghost use Rattle.grammar_model.specs.Ahead.{Longest, Any};
ghost use Rattle.grammar_model.specs.Spanned.{SpannedSequence, SpannedMethod, plain_tree, plain_sequence, plain_method};
ghost use Rattle.grammar_model.specs.Spans.{Span, spanned_in, span_at, IsRunAt};
ghost use Rattle.grammar_model.specs.Whole.{IsDoIt, IsMethod, Form, DoIt, Method, IsText};
ghost use Rattle.grammar_model.specs.Checks.{Fault};
ghost use Rattle.grammar_model.specs.Spelling.{SpellsDoIt, SpellsMethod, SpellsDoItAt, SpellsMethodAt, SpellsPattern, HasStop, HasFirstFault, HasFirstPatternFault};
ghost use Rattle.grammar_model.specs.Examples.{AllJudged, doits, methods, kernel_methods, a_doit, its_sequence, a_method, its_tree, a_text, its_tokens, its_lexemes};
ghost use Rattle.grammar_model.specs.Lexemes.{lexemes_by, lexemes_of};
ghost use Rattle.grammar_model.specs.PatternTokens.{pattern_terminal_of};
ghost use Rattle.grammar_model.specs.PatternExamples.{patterns, a_pattern, its_pieces, its_metas};

/// Tokens have at most one tree, with one place for each of its parts.
pub fn has_at_most_one_tree()
    ensures doit { (tokens : List Lexeme) (tree other : SpannedSequence) → IsDoIt Longest tokens tree → IsDoIt Longest tokens other → tree ≡ other }
    ensures method { (kernel : Bool) (tokens : List Lexeme) (tree other : SpannedMethod) → IsMethod Longest kernel tokens tree → IsMethod Longest kernel tokens other → tree ≡ other }
{}

/// Tokens that end with the end of a text are a text of the grammar or have one first fault, never
/// both.
pub fn is_text_or_stops()
    ensures either { (form : Form) (tokens : List Lexeme) → IsEnded tokens → IsText form tokens ⊎ ((fault : Fault) × HasStop form tokens fault) }
    ensures not_both { (form : Form) (tokens : List Lexeme) (fault : Fault) → IsText form tokens → ¬ HasStop form tokens fault }
    ensures one_fault { (form : Form) (tokens : List Lexeme) (fault other : Fault) → HasStop form tokens fault → HasStop form tokens other → fault ≡ other }
{}

/// Each text spells exactly one do-it or has exactly one first fault, never both.
pub fn spells_doit_or_has_fault()
    ensures either { (dialect : Dialect) (text : Text) → ((tree : SequenceOf Text) × SpellsDoIt dialect text tree) ⊎ ((fault : Fault) × HasFirstFault dialect DoIt text fault) }
    ensures not_both { (dialect : Dialect) (text : Text) (tree : SequenceOf Text) (fault : Fault) → SpellsDoIt dialect text tree → ¬ HasFirstFault dialect DoIt text fault }
    ensures one_tree { (dialect : Dialect) (text : Text) (tree other : SequenceOf Text) → SpellsDoIt dialect text tree → SpellsDoIt dialect text other → tree ≡ other }
    ensures one_fault { (dialect : Dialect) (text : Text) (fault other : Fault) → HasFirstFault dialect DoIt text fault → HasFirstFault dialect DoIt text other → fault ≡ other }
{}

/// Each text spells exactly one method, of the kernel or of a user, or has exactly one first fault,
/// never both.
pub fn spells_method_or_has_fault()
    ensures either { (dialect : Dialect) (kernel : Bool) (text : Text) → ((tree : MethodOf Text) × SpellsMethod dialect kernel text tree) ⊎ ((fault : Fault) × HasFirstFault dialect (Method kernel) text fault) }
    ensures not_both { (dialect : Dialect) (kernel : Bool) (text : Text) (tree : MethodOf Text) (fault : Fault) → SpellsMethod dialect kernel text tree → ¬ HasFirstFault dialect (Method kernel) text fault }
    ensures one_tree { (dialect : Dialect) (kernel : Bool) (text : Text) (tree other : MethodOf Text) → SpellsMethod dialect kernel text tree → SpellsMethod dialect kernel text other → tree ≡ other }
    ensures one_fault { (dialect : Dialect) (kernel : Bool) (text : Text) (fault other : Fault) → HasFirstFault dialect (Method kernel) text fault → HasFirstFault dialect (Method kernel) text other → fault ≡ other }
{}

/// Each text spells exactly one pattern or has exactly one first fault, never both.
pub fn spells_pattern_or_has_fault()
    ensures either { (text : Text) → ((tree : TreeOf Text) × SpellsPattern text tree) ⊎ ((fault : Fault) × HasFirstPatternFault text fault) }
    ensures not_both { (text : Text) (tree : TreeOf Text) (fault : Fault) → SpellsPattern text tree → ¬ HasFirstPatternFault text fault }
    ensures one_tree { (text : Text) (tree other : TreeOf Text) → SpellsPattern text tree → SpellsPattern text other → tree ≡ other }
    ensures one_fault { (text : Text) (fault other : Fault) → HasFirstPatternFault text fault → HasFirstPatternFault text other → fault ≡ other }
{}

/// Where rows may end anywhere, as the grammar is written down, tokens have the same trees as where
/// rows are as long as they can be: looking ahead at the end of a row excludes no text.
pub fn needs_no_looking_ahead()
    ensures doit { (tokens : List Lexeme) (tree : SpannedSequence) → IsDoIt Any tokens tree ↔ IsDoIt Longest tokens tree }
    ensures method { (kernel : Bool) (tokens : List Lexeme) (tree : SpannedMethod) → IsMethod Any kernel tokens tree ↔ IsMethod Longest kernel tokens tree }
{}

/// What a text spells in the first dialect it spells in the second.
pub fn spells_the_same_with_braces()
    ensures doit { (text : Text) (tree : SequenceOf Text) → SpellsDoIt First text tree → SpellsDoIt Second text tree }
    ensures method { (kernel : Bool) (text : Text) (tree : MethodOf Text) → SpellsMethod First kernel text tree → SpellsMethod Second kernel text tree }
{}

/// A text has at most one node from one place up to another: no two paths lead to nodes of one span.
pub fn has_one_node_at_a_place()
    ensures doit { (dialect : Dialect) (text : Text) (tree : SpannedSequence) (path other : List ℕ) (span : Span) → SpellsDoItAt dialect text tree → span_at tree path ≡ Some span → span_at tree other ≡ Some span → path ≡ other }
    ensures method { (dialect : Dialect) (kernel : Bool) (text : Text) (tree : SpannedMethod) (path other : List ℕ) (span : Span) → SpellsMethodAt dialect kernel text tree → span_at tree.body path ≡ Some span → span_at tree.body other ≡ Some span → path ≡ other }
{}

/// Two or more neighbouring statements stand where no node stands, and where no other such statements
/// stand.
pub fn has_one_run_at_a_place()
    ensures doit_node { (dialect : Dialect) (text : Text) (tree : SpannedSequence) (path other : List ℕ) (first count : ℕ) (span : Span) → SpellsDoItAt dialect text tree → IsRunAt tree path first count span → ¬ (span_at tree other ≡ Some span) }
    ensures doit_run { (dialect : Dialect) (text : Text) (tree : SpannedSequence) (path other : List ℕ) (first second count number : ℕ) (span : Span) → SpellsDoItAt dialect text tree → IsRunAt tree path first count span → IsRunAt tree other second number span → (path ≡ other) × (first ≡ second) × (count ≡ number) }
    ensures method_node { (dialect : Dialect) (kernel : Bool) (text : Text) (tree : SpannedMethod) (path other : List ℕ) (first count : ℕ) (span : Span) → SpellsMethodAt dialect kernel text tree → IsRunAt tree.body path first count span → ¬ (span_at tree.body other ≡ Some span) }
    ensures method_run { (dialect : Dialect) (kernel : Bool) (text : Text) (tree : SpannedMethod) (path other : List ℕ) (first second count number : ℕ) (span : Span) → SpellsMethodAt dialect kernel text tree → IsRunAt tree.body path first count span → IsRunAt tree.body other second number span → (path ≡ other) × (first ≡ second) × (count ≡ number) }
{}

/// A path leads to the same node in the tree with places and in the tree without them.
pub fn leads_to_the_same_node()
    ensures doit { (tree : SpannedSequence) (path : List ℕ) → option_map plain_tree (spanned_in tree path) ≡ part_in (plain_sequence tree) path }
    ensures method { (tree : SpannedMethod) (path : List ℕ) → option_map plain_tree (spanned_in tree.body path) ≡ part_in (plain_method tree).body path }
{}

/// What a text spells is at most 200 high, a method has its comments in normal form, and a user's
/// method has no primitive.
pub fn keeps_the_limits()
    ensures doit { (dialect : Dialect) (text : Text) (tree : SequenceOf Text) → SpellsDoIt dialect text tree → sequence_height tree ≤ 200 }
    ensures method { (dialect : Dialect) (kernel : Bool) (text : Text) (tree : MethodOf Text) → SpellsMethod dialect kernel text tree → sequence_height tree.body ≤ 200 }
    ensures normal { (dialect : Dialect) (kernel : Bool) (text : Text) (tree : MethodOf Text) → SpellsMethod dialect kernel text tree → IsNormal tree }
    ensures user { (dialect : Dialect) (text : Text) (tree : MethodOf Text) → SpellsMethod dialect false text tree → tree.primitive ≡ None }
{}

/// The tokens of the examples are texts, or have the fault that stands beside them. Two of them, with
/// comments, have the trees that stand beside them, and the grammar sees the tokens of a text and of a
/// pattern as the last two examples say.
pub fn judges_examples()
    ensures doits { AllJudged doits }
    ensures methods { AllJudged methods }
    ensures kernel_methods { AllJudged kernel_methods }
    ensures patterns { AllJudged patterns }
    ensures doit_tree { IsDoIt Longest a_doit its_sequence }
    ensures method_tree { IsMethod Longest false a_method its_tree }
    ensures lexemes { lexemes_of a_text [] its_tokens ≡ its_lexemes }
    ensures metas { lexemes_by pattern_terminal_of a_pattern [] its_pieces ≡ its_metas }
{}
