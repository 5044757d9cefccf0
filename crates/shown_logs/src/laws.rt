// Laws of logs of sessions. Each function does nothing; its contract is the law, for all books, commands and logs.
ghost use Rattle.std.specs.Prelude.{◌≡◌, ℕ, Bool, IsTrue, List, map};
ghost use Rattle.std.specs.List.{AllByRecursion, list_all};
ghost use Rattle.team_core.specs.declared.reply.Reply.{Reply};
ghost use Rattle.team_core.specs.History.{RulesOf};
ghost use Rattle.team_core.specs.Events.{PointOf};
ghost use Rattle.team_laws.specs.Logs.{EventOf, Fits, Runs, replies, reached};
ghost use Rattle.shown_logs.specs.Shown.{shown, event_shown, point_shown, AreShown};

/// Where rules are those over other commands and other causes, a log has the same replies, each cause shown otherwise, and leads
/// to the same history.
pub fn law_shown<S, C, D, Q, R>()
    ensures replies { (f : C → D) (g : R → Q) (a : RulesOf S C Q) (b : RulesOf S D R) → AreShown f g a b → (p : PointOf S C) (es : List (EventOf C)) →
        replies a p es ≡ map (shown g) (replies b (point_shown f p) (map (event_shown f) es)) }
    ensures history { (f : C → D) (g : R → Q) (a : RulesOf S C Q) (b : RulesOf S D R) → AreShown f g a b → (p : PointOf S C) (es : List (EventOf C)) →
        (reached a p es).history ≡ (reached b (point_shown f p) (map (event_shown f) es)).history }
{}

/// The events of a run whose proposals fit the rules at its start have the replies that the log has by those rules, and the run
/// ends where the log leads by them, though the rules may have widened.
pub fn law_steady<S, C, Q>()
    ensures replies { (old new : RulesOf S C Q) (f g : C → Bool) (p q : PointOf S C) (es : List (EventOf C)) (rs : List (Reply Q)) →
        Runs old f p es rs new g q → ((s : ℕ) → IsTrue (list_all f (p.proposed s))) → AllByRecursion (λ (e : EventOf C). Fits f e.act) es → rs ≡ replies old p es }
    ensures reached { (old new : RulesOf S C Q) (f g : C → Bool) (p q : PointOf S C) (es : List (EventOf C)) (rs : List (Reply Q)) →
        Runs old f p es rs new g q → ((s : ℕ) → IsTrue (list_all f (p.proposed s))) → AllByRecursion (λ (e : EventOf C). Fits f e.act) es → q ≡ reached old p es }
{}
