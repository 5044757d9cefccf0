// Laws of scripts. Each function does nothing; its contract is the law.
ghost use Rattle.std.specs.Prelude.{◌≡◌, List, Ok};
ghost use Rattle.std.specs.List.{AllByRecursion};
ghost use Rattle.image_model.specs.Image.{DoItOf, ImageOf, plus};
ghost use Rattle.run_model.specs.Values.{Name};
ghost use Rattle.run_model.specs.Renamings.{Renaming, composed};
ghost use Rattle.run_model.specs.Matched.{AreMatched};
ghost use Rattle.command_model.specs.Renamings.{SaysTheSame};
ghost use Rattle.command_model.specs.Beside.{HasOneMore};
ghost use Rattle.history_model.specs.Rules.{Asks};
ghost use Rattle.session_model.specs.Admitted.{Admits, nil_doit};
ghost use Rattle.session_model.specs.Scripts.{Request, History, verdict_in};
ghost use Rattle.kept_runs.specs.WellSpelled.{IsWellSpelledAction};
ghost use Rattle.kept_runs.specs.KeepsRuns.{IsSound, AllKeepRuns, IsKept};

/// Where each single command keeps runs, so does each script that is accepted, composites, undo and redo among its lines. For
/// each start expression that the script admits, the result in the image with that expression as last do-it is the result in the
/// image with one more do-it; and the image with the expression is matched by it, up to the same renaming.
pub fn law_history()
    ensures kept { (kernel i : ImageOf Name) (script : List Request) (h : History) → AllKeepRuns kernel → IsSound kernel i →
        AllByRecursion (Asks IsWellSpelledAction) script → verdict_in i script ≡ Ok h → IsKept kernel i h.now }
    ensures admitted { (kernel i : ImageOf Name) (script : List Request) (h : History) (e : DoItOf Name) → AllKeepRuns kernel → IsSound kernel i →
        AllByRecursion (Asks IsWellSpelledAction) script → verdict_in i script ≡ Ok h → (a : Admits i script e) →
        HasOneMore h.now.image a.history.now.image × (a.history.now.renaming ≡ h.now.renaming)
        × AreMatched (plus i e) a.history.now.image h.now.renaming }
{}

/// Where a script is accepted and admits a start expression, its result in the image with that expression as last do-it is its
/// result in the image with one more do-it, and renames the same.
pub fn law_admitted()
    ensures { (i : ImageOf Name) (script : List Request) (h : History) (e : DoItOf Name) → verdict_in i script ≡ Ok h → (a : Admits i script e) →
        HasOneMore h.now.image a.history.now.image × (a.history.now.renaming ≡ h.now.renaming) }
{}

/// Wherever a script is accepted it admits the start expression `nil`, so that what is said of admitted expressions is always
/// said of the image's own do-its.
pub fn law_nil_admitted()
    ensures { (i : ImageOf Name) (script : List Request) (h : History) → verdict_in i script ≡ Ok h → Admits i script nil_doit }
{}

/// A renaming that says the same may stand in place of another one: images are matched up to it, and it may be followed by
/// further ones. So a session need not keep the long lists that renamings one after the other make.
pub fn law_renamings_said()
    ensures matched { (i j : ImageOf Name) (r s : Renaming) → SaysTheSame r s → AreMatched i j r → AreMatched i j s }
    ensures composed { (r s q : Renaming) → SaysTheSame r s → SaysTheSame (composed r q) (composed s q) }
{}
