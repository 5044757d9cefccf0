// Laws of logs of sessions. Each function does nothing; its contract is the law, for all books, commands and logs.
ghost use Rattle.std.specs.Prelude.{◌≡◌, ◌+◌, ◌<◌, ◌↔◌, ◌++◌, ◌∷◌, [], ℕ, Bool, IsTrue, List, length, Ok, Some};
ghost use Rattle.std.specs.List.{list_all};
ghost use Rattle.team_core.specs.declared.reply.Reply.{Reply};
ghost use Rattle.team_core.specs.declared.entry.Entry.{Entry};
ghost use Rattle.team_core.specs.declared.entry.Stand.TheVariants.{Late};
ghost use Rattle.team_core.specs.Journal.{revision, last_mover, since, standing};
ghost use Rattle.team_core.specs.History.{RulesOf, Keeps};
ghost use Rattle.team_core.specs.Events.{PointOf, Begin, Answers, Stays, is_accepted};
ghost use Rattle.team_laws.specs.Logs.{EventOf, Fits, Runs, replies, reached, movers, led};
ghost use Rattle.team_laws.specs.Words.{IsOpenSince, IsLate, IsLastMover, HasNoneIdle};

/// A run begins with no events, goes on by an event that is answered, and waits at one that wants memory. So a loop over
/// the events of a log keeps it.
pub fn law_runs<S, C, Q>()
    ensures start { (rules : RulesOf S C Q) (fits : C → Bool) (p : PointOf S C) → Runs rules fits p [] [] rules fits p }
    ensures more { (old new later : RulesOf S C Q) (f g k : C → Bool) (p q m : PointOf S C) (es : List (EventOf C)) (rs : List (Reply Q)) (e : EventOf C) (r : Reply Q) →
        Runs old f p es rs new g q → Answers new q e.session e.act r m → Fits g e.act → Keeps new g later k → Runs old f p (es ++ e ∷ []) (rs ++ r ∷ []) later k m }
    ensures waits { (old new later : RulesOf S C Q) (f g k : C → Bool) (p q m : PointOf S C) (es : List (EventOf C)) (rs : List (Reply Q)) →
        Runs old f p es rs new g q → Stays q m → Keeps new g later k → Runs old f p es rs later k m }
{}

/// The events of a run, in any interleaving, have the replies that the log has by the rules at the end, and the run ends
/// where the log leads.
pub fn law_log<S, C, Q>()
    ensures replies { (old new : RulesOf S C Q) (f g : C → Bool) (p q : PointOf S C) (es : List (EventOf C)) (rs : List (Reply Q)) →
        Runs old f p es rs new g q → ((s : ℕ) → IsTrue (list_all f (p.proposed s))) → rs ≡ replies new p es }
    ensures reached { (old new : RulesOf S C Q) (f g : C → Bool) (p q : PointOf S C) (es : List (EventOf C)) (rs : List (Reply Q)) →
        Runs old f p es rs new g q → ((s : ℕ) → IsTrue (list_all f (p.proposed s))) → q ≡ reached new p es }
{}

/// The book is where the movers of the log lead in order, each accepted commit of at least one command being one group, and
/// the revision counts them.
pub fn law_history<S, C, Q>()
    ensures history { (rules : RulesOf S C Q) (p : PointOf S C) (es : List (EventOf C)) → led rules p.history (movers rules p es) ≡ Ok (reached rules p es).history }
    ensures revision { (rules : RulesOf S C Q) (p : PointOf S C) (es : List (EventOf C)) → revision (reached rules p es).log ≡ revision p.log + length (movers rules p es) }
{}

/// A session is open since a place exactly where it was accepted to begin there and did not commit since; it is late exactly
/// where a mover stands between; and the last mover is told with its number and the revision after it.
pub fn law_words()
    ensures opened { (s : ℕ) (log between : List Entry) → (since s log ≡ Some between) ↔ IsOpenSince s log between }
    ensures late { (s : ℕ) (log : List Entry) → (standing s log ≡ Late) ↔ IsLate s log }
    ensures last { (log : List Entry) → 0 < revision log → IsLastMover log (last_mover log) (revision log) }
{}

/// Where no session has commands proposed while it is idle, so it is after each event that is answered, at the end of each run,
/// and where each log leads; and it is so where nothing is proposed, as at the beginning of a log. So a session that is
/// accepted to begin has nothing proposed.
pub fn law_idle<S, C, Q>()
    ensures start { (p : PointOf S C) → ((s : ℕ) → p.proposed s ≡ []) → HasNoneIdle p }
    ensures event { (rules : RulesOf S C Q) (p q : PointOf S C) (e : EventOf C) (r : Reply Q) →
        HasNoneIdle p → Answers rules p e.session e.act r q → HasNoneIdle q }
    ensures run { (old new : RulesOf S C Q) (f g : C → Bool) (p q : PointOf S C) (es : List (EventOf C)) (rs : List (Reply Q)) →
        HasNoneIdle p → Runs old f p es rs new g q → HasNoneIdle q }
    ensures reached { (rules : RulesOf S C Q) (p : PointOf S C) (es : List (EventOf C)) → HasNoneIdle p → HasNoneIdle (reached rules p es) }
    ensures begun { (rules : RulesOf S C Q) (p q : PointOf S C) (s : ℕ) (r : Reply Q) →
        HasNoneIdle p → Answers rules p s Begin r q → IsTrue (is_accepted r) → q.proposed s ≡ [] }
{}
