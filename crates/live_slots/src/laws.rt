// The law of slots that are all live.
ghost use Rattle.std.specs.Prelude.{◌≡◌, ℕ, List, [], ◌∷◌, ◌++◌, length, slice_set};
ghost use Rattle.class_table.specs.declared.record.ClassRec.{ClassRec};
ghost use Rattle.class_table.specs.declared.record.MethodRec.{MethodRec};
ghost use Rattle.class_table.specs.declared.record.DoIt.{DoIt};
ghost use Rattle.class_table.specs.Slots.{Slots};
ghost use Rattle.live_slots.specs.Live.{AllLive};

/// Each slot is live where there are no slots, and stays live where a class, a method or a do-it is added, a method is
/// replaced, names are added, or the do-its at the head are counted, as in the reading of a file.
pub fn law_all_live()
    ensures none { (s : Slots) → s.classes ≡ [] → s.methods ≡ [] → AllLive s }
    ensures class { (s : Slots) (c : ClassRec) → AllLive s → AllLive (record s { classes = s.classes ++ c ∷ []; class_order = s.class_order ++ length s.classes ∷ [] }) }
    ensures method { (s : Slots) (m : MethodRec) → AllLive s → AllLive (record s { methods = s.methods ++ m ∷ []; method_order = s.method_order ++ length s.methods ∷ [] }) }
    ensures replaced { (s : Slots) (k : ℕ) (m : MethodRec) → AllLive s → AllLive (record s { methods = slice_set s.methods k m }) }
    ensures doits { (s : Slots) (ds : List DoIt) → AllLive s → AllLive (record s { doits = ds }) }
    ensures heads { (s : Slots) (n : ℕ) → AllLive s → AllLive (record s { heads = n }) }
    ensures names { (s : Slots) (names : List (List ℕ)) → AllLive s → AllLive (record s { names = names }) }
{}
