// Laws of slots with further ones at the ends. Each function does nothing; its contract is the law.
ghost use Rattle.std.specs.Prelude.{◌≡◌, ℕ, List, [], ◌∷◌, ◌++◌, length, Ok, Err};
ghost use Rattle.std.specs.List.{AllByRecursion};
ghost use Rattle.image_model.specs.Image.{ImageOf};
ghost use Rattle.class_table.specs.declared.record.ClassRec.{ClassRec};
ghost use Rattle.class_table.specs.declared.record.MethodRec.{MethodRec};
ghost use Rattle.class_table.specs.declared.record.DoIt.{DoIt};
ghost use Rattle.class_table.specs.Slots.{Slots};
ghost use Rattle.class_table.specs.View.{image_of};
ghost use Rattle.class_table.specs.Valid.{IsOrderly};
ghost use Rattle.class_table.specs.declared.tables.MethodKey.{MethodKey};
ghost use Rattle.class_table.specs.Finding.{named_in, method_in, chain_of};
ghost use Rattle.class_table.specs.Kept.{FitsMethod, FitsClass};
ghost use Rattle.image_laws.specs.Orders.{HasOrders};
ghost use Rattle.rb_base.specs.Names.{HasNoTwice};
ghost use Rattle.change_set.specs.declared.change.Change.{Change};
ghost use Rattle.change_set.specs.Change.{applied, inverse, CanApply};
ghost use Rattle.change_set.specs.Changes.{all_applied, inverses, CanApplyAll, all_undone, inverses_undone, CanUndoAll, Undoes, Redoes};
ghost use Rattle.history_model.specs.Rules.{RulesOf};
ghost use Rattle.history_model.specs.History.{HistoryOf, opened, performed, undone, redone};
ghost use Rattle.history_model.specs.Logs.{StandsFor, IsWidening};
ghost use Rattle.wider_slots.specs.Closed.{ClassWithin, MethodWithin, DoItWithin, IsClosed, FitsIn};
ghost use Rattle.live_slots.specs.Live.{AllLive};
ghost use Rattle.wider_slots.specs.Wider.{More, MoreWithin, widened, Wider, one_class, one_method};
ghost use Rattle.wider_slots.specs.Logs.{slot_swaps, IsReady};

/// A change of any kind that can be applied still can be among further slots, makes the same but for these, and leaves the
/// same change back.
pub fn law_wider_change()
    ensures can { (more : More) (s : Slots) (c : Change) → CanApply s c → CanApply (widened more s) c }
    ensures result { (more : More) (s : Slots) (c : Change) → CanApply s c → applied (widened more s) c ≡ widened more (applied s c) }
    ensures back { (more : More) (s : Slots) (c : Change) → CanApply s c → inverse (widened more s) c ≡ inverse s c }
{}

/// Changes that can be applied in order, or taken back, can be so among further slots: they lead to the same but for these,
/// and leave the same changes.
pub fn law_wider_changes()
    ensures redo { (more : More) (s t : Slots) (cs ds : List Change) → Redoes s cs t ds → Redoes (widened more s) cs (widened more t) ds }
    ensures undo { (more : More) (s t : Slots) (cs ds : List Change) → Undoes s cs t ds → Undoes (widened more s) cs (widened more t) ds }
    ensures can_redo { (more : More) (s : Slots) (cs : List Change) → CanApplyAll s cs → CanApplyAll (widened more s) cs }
    ensures can_undo { (more : More) (s : Slots) (cs : List Change) → CanUndoAll s cs → CanUndoAll (widened more s) cs }
{}

/// Changes in two parts, as those of the steps of a composite: the second part is undone first, and the first one is done
/// again first.
pub fn law_change_parts()
    ensures undone { (s : Slots) (xs ys : List Change) → all_undone s (xs ++ ys) ≡ all_undone (all_undone s ys) xs }
    ensures undo { (s t u : Slots) (xs ys fx fy : List Change) → Undoes s ys t fy → Undoes t xs u fx → Undoes s (xs ++ ys) u (fx ++ fy) }
    ensures redo { (s t u : Slots) (xs ys fx fy : List Change) → Redoes s xs t fx → Redoes t ys u fy → Redoes s (xs ++ ys) u (fx ++ fy) }
{}

/// Closed slots stand for the same image with further slots and names at the ends.
pub fn law_wider_image()
    ensures { (more : More) (s : Slots) → IsClosed s → image_of (widened more s) ≡ image_of s }
{}

/// The slots of an orderly image all of whose slots are live are closed; and closed slots stay so among further ones that
/// name what is there, and with one more do-it that does.
pub fn law_closed()
    ensures orderly { (s : Slots) → IsOrderly s → AllLive s → IsClosed s }
    ensures more { (more : More) (s : Slots) → IsClosed s → MoreWithin s more → IsClosed (widened more s) }
    ensures doit { (s : Slots) (d : DoIt) → IsClosed s → DoItWithin (length s.names) (length s.classes) d → IsClosed (record s { doits = s.doits ++ d ∷ [] }) }
{}

/// A class or a method that fits slots with orders names what is there; and a class or a method that does, and names that
/// are new, may be added to closed slots.
pub fn law_within()
    ensures class { (s : Slots) (k : ℕ) (c : ClassRec) → HasOrders s → FitsClass s k c → ClassWithin (length s.names) (length s.classes) c }
    ensures method { (s : Slots) (m : MethodRec) → HasOrders s → FitsMethod s m → MethodWithin (length s.names) (length s.classes) m }
    ensures one_class { (s : Slots) (c : ClassRec) → IsClosed s → ClassWithin (length s.names) (length s.classes) c → MoreWithin s (one_class c) }
    ensures one_method { (s : Slots) (m : MethodRec) → IsClosed s → MethodWithin (length s.names) (length s.classes) m → MoreWithin s (one_method m) }
    ensures names { (s : Slots) (names : List (List ℕ)) → HasNoTwice (s.names ++ names) → MoreWithin s (record { names = names; classes = []; methods = [] }) }
{}

/// Closed slots stay closed under a change that fits. The change that leads back fits in what it leaves, and what fits still
/// does after any change and among further slots.
pub fn law_closed_changes()
    ensures one { (s : Slots) (c : Change) → IsClosed s → CanApply s c → FitsIn s c → IsClosed (applied s c) }
    ensures back { (s : Slots) (c : Change) → IsClosed s → FitsIn s c → FitsIn (applied s c) (inverse s c) }
    ensures kept { (s : Slots) (c d : Change) → FitsIn s d → FitsIn (applied s c) d }
    ensures wider { (more : More) (s : Slots) (c : Change) → FitsIn s c → FitsIn (widened more s) c }
{}

/// Logs of changes go with the widening of closed slots: the premise of `law_logs` at the slots of an image.
pub fn law_slots_widen<R>()
    ensures is { IsWidening slot_swaps Wider }
    ensures log { (s t : Slots) (back forth : List (List Change)) (h : HistoryOf (ImageOf (List ℕ)) R) → Wider s t → StandsFor slot_swaps s back forth h → StandsFor slot_swaps t back forth h }
{}

/// What is found by name or by class, side and selector among the live slots is found among further ones too, so that the
/// tables of an image stand for the wider slots; and chains stay.
pub fn law_wider_searches()
    ensures class { (more : More) (s : Slots) (name : ℕ) → HasOrders s → named_in (s.classes ++ more.classes) s.class_order name ≡ named_in s.classes s.class_order name }
    ensures method { (more : More) (s : Slots) (key : MethodKey) → HasOrders s → method_in (s.methods ++ more.methods) s.method_order key ≡ method_in s.methods s.method_order key }
    ensures chain { (more : More) (s : Slots) (class : ℕ) → HasOrders s → chain_of (s.classes ++ more.classes) s.class_order class ≡ chain_of s.classes s.class_order class }
{}

/// Orderly slots are orderly among further ones.
pub fn law_wider_orderly()
    ensures { (s t : Slots) → Wider s t → IsOrderly s → IsOrderly t }
{}

/// Slots that are ready are closed, orderly and stand for a history. So are those of an opened image; they stay so where room
/// is made, and move as the history does, by `undo_all` and `apply_all`, for which the changes of the log are ready.
pub fn law_ready<C, X, Q, R>()
    ensures opened { (rules : RulesOf (ImageOf (List ℕ)) C X Q R) (s : Slots) → IsClosed s → IsOrderly s → IsReady s [] [] (opened rules (image_of s)) }
    ensures widened { (s t : Slots) (back forth : List (List Change)) (h : HistoryOf (ImageOf (List ℕ)) R) → IsReady s back forth h → Wider s t → IsReady t back forth h }
    ensures can_undo { (s : Slots) (back forth : List (List Change)) (cs : List Change) (h : HistoryOf (ImageOf (List ℕ)) R) → IsReady s (cs ∷ back) forth h → CanUndoAll s cs }
    ensures undo { (rules : RulesOf (ImageOf (List ℕ)) C X Q R) (s : Slots) (back forth : List (List Change)) (cs : List Change) (h g : HistoryOf (ImageOf (List ℕ)) R) →
        IsReady s (cs ∷ back) forth h → undone rules h ≡ Ok g → IsReady (all_undone s cs) back (inverses_undone s cs ∷ forth) g }
    ensures can_redo { (s : Slots) (back forth : List (List Change)) (cs : List Change) (h : HistoryOf (ImageOf (List ℕ)) R) → IsReady s back (cs ∷ forth) h → CanApplyAll s cs }
    ensures redo { (rules : RulesOf (ImageOf (List ℕ)) C X Q R) (s : Slots) (back forth : List (List Change)) (cs : List Change) (h g : HistoryOf (ImageOf (List ℕ)) R) →
        IsReady s back (cs ∷ forth) h → redone rules h ≡ Ok g → IsReady (all_applied s cs) (inverses s cs ∷ back) forth g }
    ensures first { (rules : RulesOf (ImageOf (List ℕ)) C X Q R) (s : Slots) (forth : List (List Change)) (h : HistoryOf (ImageOf (List ℕ)) R) → IsReady s [] forth h → undone rules h ≡ Err rules.undo_left }
    ensures last { (rules : RulesOf (ImageOf (List ℕ)) C X Q R) (s : Slots) (back : List (List Change)) (h : HistoryOf (ImageOf (List ℕ)) R) → IsReady s back [] h → redone rules h ≡ Err rules.redo_left }
{}
