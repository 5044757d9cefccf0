// Laws of runs. Each function does nothing; its contract is the law, for all images whose names are texts.
ghost use Rattle.std.specs.Prelude.{◌≡◌, ◌≤◌, ◌+◌, ◌*◌, ◌∷◌, ◌++◌, [], ℕ, List, length, IsTrue, not, false, Some};
ghost use Rattle.tree_model.specs.Tree.{TreeOf, TreesOf};
ghost use Rattle.scope_model.specs.SpecialNames.{control_form};
ghost use Rattle.scope_model.specs.Control.{meets};
ghost use Rattle.image_model.specs.Image.{EntryOf, DoItOf, ImageOf};
ghost use Rattle.image_model.specs.Words.{text_words};
ghost use Rattle.image_model.specs.Means.{means, means_in_doit};
ghost use Rattle.tree_model.specs.Path.{part_among, statement_trees};
ghost use Rattle.scope_model.specs.Scope.{ScopeOf, PlacedScope, method_scope, doit_scope, own_scope, scopes_round};
ghost use Rattle.run_model.specs.Reading.{reads};
ghost use Rattle.run_model.specs.Layouts.{IsLaidOut, ReadsAs};
ghost use Rattle.run_model.specs.Values.{Name, Value, Event, Outcome, spent};
ghost use Rattle.run_model.specs.Prefixes.{IsPrefixOf};
ghost use Rattle.run_model.specs.Store.{Frame, Store};
ghost use Rattle.run_model.specs.Acts.{acts};
ghost use Rattle.run_model.specs.Shapes.{is_message, shape_of};
ghost use Rattle.run_model.specs.Eval.{Task, step, evaluates, held, in_cells, inside};
ghost use Rattle.run_model.specs.Runs.{doit_class, run_to, run, has_ended, seen, comes_to_at_last, IsWithin};
ghost use Rattle.run_model.specs.Renamings.{Renaming, no_renaming, IsComposite, composed, renamed_events, renamed_outcome};
ghost use Rattle.run_model.specs.Matched.{AreMatched};

/// More ticks extend a run: one that has ended stays as it is, and the events of any run are a prefix of those with more
/// ticks. A run of n ticks that is spent took all n.
pub fn law_more_ticks()
    ensures ended { (i : ImageOf Name) (n m : ℕ) → n ≤ m → IsTrue (has_ended ((run i n).outcome)) → run i m ≡ run i n }
    ensures events { (i : ImageOf Name) (n m : ℕ) → n ≤ m → IsPrefixOf ((run i n).events) ((run i m).events) }
    ensures taken { (i : ImageOf Name) (n : ℕ) → (run i n).outcome ≡ spent → (run i n).ticks ≡ n }
{}

/// The depth of a run, 2 n + 2 for n ticks, never runs out before the ticks: with more depth the run is the same.
pub fn law_depth()
    ensures { (i : ImageOf Name) (n d : ℕ) → 2 * n + 2 ≤ d → run_to i d n ≡ run i n }
{}

/// With depth enough for the ticks that are left, evaluation is one step of itself, and a run is that of this evaluator.
/// It leaves fewer ticks than there were where a node gives a value or a return, and none where it is spent.
pub fn law_evaluates()
    ensures step { (i : ImageOf Name) (t : Task) (s : Store) → evaluates i t s ≡ step acts i (evaluates i) t s }
    ensures run { (i : ImageOf Name) (n : ℕ) → run i n ≡ seen n (comes_to_at_last i n) }
    ensures ticks { (i : ImageOf Name) (t : Task) (s : Store) → IsWithin s.ticks (evaluates i t s) }
{}

/// A send has the shape of a message exactly where it is no control send by its selector, receiver and arguments.
pub fn law_control_sends()
    ensures { (s : Name) (r : TreeOf Name) (args : TreesOf Name) → is_message (shape_of s r args) ≡ not (meets (control_form s) r args) }
{}

/// Reading a name by the environment is reading what it means at its place, where the environment is laid out as the
/// scopes round the place declare names: arguments with values and temporaries with cells. An environment that is laid out
/// for some scopes is so for one more when that is entered; and the scopes round a part are those round the node above it,
/// with that node where it is a block.
pub fn law_names_at_places()
    ensures method { (i : ImageOf Name) (m : EntryOf Name) (path : List ℕ) (f : Frame) (n : Name) →
        f.home.class ≡ m.class → f.home.meta ≡ m.meta → IsLaidOut (scopes_round (method_scope m.tree) path) f.slots →
        ReadsAs acts f n (means text_words i m path n) (reads acts i f n) }
    ensures doit { (i : ImageOf Name) (d : DoItOf Name) (path : List ℕ) (f : Frame) (n : Name) →
        f.home.class ≡ doit_class i → f.home.meta ≡ false → IsLaidOut (scopes_round (doit_scope d.body) path) f.slots →
        ReadsAs acts f n (means_in_doit text_words i d path n) (reads acts i f n) }
    ensures entered { (ps : List (PlacedScope Name)) (f : Frame) (d : ℕ) (scope : ScopeOf Name) (vs : List Value) (k : ℕ) →
        IsLaidOut ps f.slots → IsLaidOut ((d, scope) ∷ ps) (inside f (held scope.arguments vs ++ in_cells scope.temporaries k)).slots }
    ensures statement { (scope : ScopeOf Name) (k : ℕ) → scopes_round scope (k ∷ []) ≡ (0, scope) ∷ [] }
    ensures part { (scope : ScopeOf Name) (path : List ℕ) (u : TreeOf Name) (k : ℕ) →
        part_among (statement_trees scope.statements) path ≡ Some u →
        scopes_round scope (path ++ k ∷ []) ≡ own_scope (length path) u ++ scopes_round scope path }
{}

/// Two renamings one after the other are one renaming, of finite maps; and what is seen of a run is renamed by it as by
/// the two.
pub fn law_renamings_composed()
    ensures composite { (r q : Renaming) → IsComposite r q (composed r q) }
    ensures events { (r q p : Renaming) (es : List Event) → IsComposite r q p → renamed_events p es ≡ renamed_events q (renamed_events r es) }
    ensures outcome { (r q p : Renaming) (o : Outcome) → IsComposite r q p → renamed_outcome p o ≡ renamed_outcome q (renamed_outcome r o) }
    ensures nothing { (es : List Event) → renamed_events no_renaming es ≡ es }
{}

/// An image is matched by itself with nothing renamed; and images that are matched one after the other are matched by the
/// renamings one after the other.
pub fn law_matched()
    ensures itself { (i : ImageOf Name) → AreMatched i i no_renaming }
    ensures composed { (i j k : ImageOf Name) (r q p : Renaming) → IsComposite r q p → AreMatched i j r → AreMatched j k q → AreMatched i k p }
{}
