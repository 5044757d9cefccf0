// Laws of histories. Each function does nothing; its contract is the law, for all images, commands, conditions and renamings.
ghost use Rattle.std.specs.Prelude.{◌≡◌, ◌↔◌, ◌⊎◌, ◌+◌, ℕ, List, [], ◌∷◌, ◌++◌, length, take, slice_get, Result, Ok, Err, Some};
ghost use Rattle.history_model.specs.Rules.{RulesOf, RequestOf, Perform, Undo, Redo};
ghost use Rattle.history_model.specs.History.{VersionOf, HistoryOf, after_action, performed, undone, redone, stepped};
ghost use Rattle.history_model.specs.Logs.{SwapsOf, StandsFor, LeadsTo, LeadsOn, IsWidening};
ghost use Rattle.history_model.specs.ChangeLists.{OneChangeOf, all_undone, CanUndoAll, list_swaps, IsWideningOfOne};
ghost use Rattle.history_model.specs.Positions.{versions, position};
ghost use Rattle.history_model.specs.Verdicts.{RefusalOf, judged_from, verdict, IsRefusedAt};

/// What was done is undone exactly: behind an action undo leads to the history before it, but for what could be redone; and
/// redo leads back to where undo came from, and undo to where redo came from. They are refused at the ends of the history
/// and nowhere else.
pub fn law_undone<I, C, X, Q, R>()
    ensures action { (rules : RulesOf I C X Q R) (h g : HistoryOf I R) (x : X) → performed rules h x ≡ Ok g →
        undone rules g ≡ Ok (record h { later = g.now ∷ [] }) }
    ensures redo { (rules : RulesOf I C X Q R) (h g : HistoryOf I R) → undone rules h ≡ Ok g → redone rules g ≡ Ok h }
    ensures undo { (rules : RulesOf I C X Q R) (h g : HistoryOf I R) → redone rules h ≡ Ok g → undone rules g ≡ Ok h }
    ensures first { (rules : RulesOf I C X Q R) (h : HistoryOf I R) (q : Q) → undone rules h ≡ Err q → (h.earlier ≡ []) × (q ≡ rules.undo_left) }
    ensures last { (rules : RulesOf I C X Q R) (h : HistoryOf I R) (q : Q) → redone rules h ≡ Err q → (h.later ≡ []) × (q ≡ rules.redo_left) }
{}

/// As a list of versions with a position: an action drops what stands behind the position and appends one version; undo and
/// redo leave the list and move the position by one.
pub fn law_positions<I, C, X, Q, R>()
    ensures now { (h : HistoryOf I R) → slice_get (versions h) (position h) ≡ Some h.now }
    ensures action { (rules : RulesOf I C X Q R) (h g : HistoryOf I R) (x : X) → performed rules h x ≡ Ok g →
        (after_action rules h.now x ≡ Ok g.now) × (versions g ≡ take (position h + 1) (versions h) ++ g.now ∷ []) × (position g ≡ position h + 1) }
    ensures undo { (rules : RulesOf I C X Q R) (h g : HistoryOf I R) → undone rules h ≡ Ok g → (versions g ≡ versions h) × (position h ≡ position g + 1) }
    ensures redo { (rules : RulesOf I C X Q R) (h g : HistoryOf I R) → redone rules h ≡ Ok g → (versions g ≡ versions h) × (position g ≡ position h + 1) }
{}

/// A script is refused exactly where the commands before one are accepted and that one is refused in the history after them;
/// and a script in two parts is judged part by part.
pub fn law_verdicts<I, C, X, Q, R>()
    ensures refused { (rules : RulesOf I C X Q R) (i : I) (script : List (RequestOf X)) (refusal : RefusalOf Q) →
        (verdict rules i script ≡ Err refusal) ↔ IsRefusedAt rules i script refusal }
    ensures parts { (rules : RulesOf I C X Q R) (i : I) (front back : List (RequestOf X)) (h : HistoryOf I R) → verdict rules i front ≡ Ok h →
        verdict rules i (front ++ back) ≡ judged_from rules (length front + 1) h back }
{}

/// What a log of swaps is, and when a state is wider than another one.
pub trait Swaps<S, E, I> {
    ghost swaps: { SwapsOf S E I };

    ghost Wider: { S → S → Type 0 };
}

/// A state with a log stands for a history, and moves as that does: an action puts an entry on the log that leads back, undo
/// takes the nearest entry back and keeps what it leaves to lead forth, and redo the other way round. Where one half of the
/// log is empty, that move is refused. A state that is widened, as by room for what an action adds, stands for the same
/// history.
pub fn law_logs<S, E, I, C, X, Q, R, W: Swaps<S, E, I>>()
    ensures action { (rules : RulesOf I C X Q R) (s t : S) (back forth : List E) (e : E) (h g : HistoryOf I R) (x : X) →
        StandsFor W.swaps s back forth h → performed rules h x ≡ Ok g → W.swaps.image_of t ≡ g.now.image → LeadsTo W.swaps t e s →
        StandsFor W.swaps t (e ∷ back) [] g }
    ensures undo { (rules : RulesOf I C X Q R) (s : S) (back forth : List E) (e : E) (h g : HistoryOf I R) →
        StandsFor W.swaps s (e ∷ back) forth h → undone rules h ≡ Ok g → LeadsOn W.swaps (W.swaps.undone s e) (W.swaps.left_by_undo s e) s →
        StandsFor W.swaps (W.swaps.undone s e) back (W.swaps.left_by_undo s e ∷ forth) g }
    ensures redo { (rules : RulesOf I C X Q R) (s : S) (back forth : List E) (e : E) (h g : HistoryOf I R) →
        StandsFor W.swaps s back (e ∷ forth) h → redone rules h ≡ Ok g → LeadsTo W.swaps (W.swaps.redone s e) (W.swaps.left_by_redo s e) s →
        StandsFor W.swaps (W.swaps.redone s e) (W.swaps.left_by_redo s e ∷ back) forth g }
    ensures widened { (s t : S) (back forth : List E) (h : HistoryOf I R) → IsWidening W.swaps W.Wider → W.Wider s t →
        StandsFor W.swaps s back forth h → StandsFor W.swaps t back forth h }
    ensures first { (rules : RulesOf I C X Q R) (s : S) (forth : List E) (h : HistoryOf I R) → StandsFor W.swaps s [] forth h → undone rules h ≡ Err rules.undo_left }
    ensures last { (rules : RulesOf I C X Q R) (s : S) (back : List E) (h : HistoryOf I R) → StandsFor W.swaps s back [] h → redone rules h ≡ Err rules.redo_left }
{}

/// What a single change is, and when a state is wider than another one.
pub trait OneChange<S, C, I> {
    ghost one: { OneChangeOf S C I };

    ghost Wider: { S → S → Type 0 };
}

/// Lists of changes lead from wider states as they did, where single changes do; and of two lists that were applied one after
/// the other the second is undone first, also where they are one list, as those of the steps of a composite are.
pub fn law_change_lists<S, C, I, W: OneChange<S, C, I>>()
    ensures widening { IsWideningOfOne W.one W.Wider → IsWidening (list_swaps W.one) W.Wider }
    ensures undone { (s : S) (xs ys : List C) → all_undone W.one s (xs ++ ys) ≡ all_undone W.one (all_undone W.one s ys) xs }
    ensures can { (s : S) (xs ys : List C) → CanUndoAll W.one s ys → CanUndoAll W.one (all_undone W.one s ys) xs → CanUndoAll W.one s (xs ++ ys) }
{}
