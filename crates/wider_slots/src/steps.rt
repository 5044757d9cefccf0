// Laws of steps, each of which makes room and applies changes. Each function does nothing; its contract is the law.
ghost use Rattle.std.specs.Prelude.{◌≡◌, ℕ, List, [], ◌∷◌, ◌++◌, length, None, Ok};
ghost use Rattle.std.specs.List.{AllByRecursion};
ghost use Rattle.image_model.specs.Image.{ImageOf};
ghost use Rattle.class_table.specs.declared.record.ClassRec.{ClassRec};
ghost use Rattle.class_table.specs.declared.record.MethodRec.{MethodRec};
ghost use Rattle.class_table.specs.declared.record.Slot.TheVariants as slot;
ghost use Rattle.class_table.specs.Slots.{Slots};
ghost use Rattle.class_table.specs.View.{image_of};
ghost use Rattle.class_table.specs.Changing.{with_live};
ghost use Rattle.class_table.specs.Valid.{IsOrderly};
ghost use Rattle.image_laws.specs.Orders.{HasOrders};
ghost use Rattle.change_set.specs.declared.change.Change.{Change};
ghost use Rattle.change_set.specs.Changes.{all_applied, inverses, CanApplyAll, all_undone, CanUndoAll};
ghost use Rattle.history_model.specs.Rules.{RulesOf};
ghost use Rattle.history_model.specs.History.{HistoryOf, performed};
ghost use Rattle.wider_slots.specs.Closed.{IsClosed, FitsIn};
ghost use Rattle.wider_slots.specs.Wider.{More, MoreWithin, one_class, one_method, widened, Wider};
ghost use Rattle.wider_slots.specs.Logs.{IsReady};
ghost use Rattle.wider_slots.specs.Steps.{IsStep};

/// What `Image::add_class` and `Image::add_method` add is a dead slot once `Image::set_live` has taken it out of its order.
pub fn law_new_slots()
    ensures class { (s : Slots) (c : ClassRec) → HasOrders s →
        with_live (record s { classes = s.classes ++ c ∷ []; class_order = s.class_order ++ length s.classes ∷ [] }) (slot.Class (length s.classes)) None ≡ widened (one_class c) s }
    ensures method { (s : Slots) (m : MethodRec) → HasOrders s →
        with_live (record s { methods = s.methods ++ m ∷ []; method_order = s.method_order ++ length s.methods ∷ [] }) (slot.Method (length s.methods)) None ≡ widened (one_method m) s }
{}

/// Closed slots with more that names what is there are wider; closed slots are as wide as themselves, and slots are wider than
/// those that theirs are wider than.
pub fn law_wider()
    ensures made { (more : More) (s : Slots) → IsClosed s → MoreWithin s more → Wider s (widened more s) }
    ensures same { (s : Slots) → IsClosed s → Wider s s }
    ensures twice { (s t u : Slots) → Wider s t → Wider t u → Wider s u }
{}

/// Room alone is a step, and so are room and changes that `apply_all` applies. Steps one after the other are one, with
/// their changes in one list, as those of a composite.
pub fn law_steps()
    ensures room { (s t : Slots) → Wider s t → IsStep s [] t }
    ensures one { (s p : Slots) (cs : List Change) → Wider s p → CanApplyAll p cs → AllByRecursion (FitsIn p) cs → IsStep s (inverses p cs) (all_applied p cs) }
    ensures both { (s t u : Slots) (xs ys : List Change) → IsStep s xs t → IsStep t ys u → IsStep s (xs ++ ys) u }
{}

/// A step can be taken back by `undo_all`, as where a later step is refused: slots are left that are wider than those before
/// the step, and so stand for the same image and history.
pub fn law_step_back<R>()
    ensures can { (s t : Slots) (cs : List Change) → IsStep s cs t → CanUndoAll t cs }
    ensures wider { (s t : Slots) (cs : List Change) → IsStep s cs t → Wider s (all_undone t cs) }
    ensures image { (s t : Slots) (cs : List Change) → IsStep s cs t → image_of (all_undone t cs) ≡ image_of s }
    ensures ready { (s t : Slots) (back forth : List (List Change)) (cs : List Change) (h : HistoryOf (ImageOf (List ℕ)) R) → IsReady s back forth h → IsStep s cs t → IsReady (all_undone t cs) back forth h }
{}

/// A step that leaves orderly slots with the image of an action is that action in the history, and its changes are the entry
/// of the log.
pub fn law_step_performed<C, X, Q, R>()
    ensures { (rules : RulesOf (ImageOf (List ℕ)) C X Q R) (s t : Slots) (back forth : List (List Change)) (cs : List Change) (h g : HistoryOf (ImageOf (List ℕ)) R) (x : X) →
        IsReady s back forth h → IsStep s cs t → IsOrderly t → performed rules h x ≡ Ok g → image_of t ≡ g.now.image → IsReady t (cs ∷ back) [] g }
{}
