// Laws of a change of slots and the change back. Each function does nothing; its contract is the law.
ghost use Rattle.std.specs.Prelude.{◌≡◌, ◌≢◌, ℕ, List, slice_get, slice_set, Option, Some};
ghost use Rattle.st_tree.specs.declared.tree.Method.{Method};
ghost use Rattle.st_tree.specs.declared.tree.Sequence.{Sequence};
ghost use Rattle.class_table.specs.declared.record.ClassRec.{ClassRec};
ghost use Rattle.class_table.specs.declared.record.MethodRec.{MethodRec};
ghost use Rattle.class_table.specs.declared.record.DoIt.{DoIt};
ghost use Rattle.class_table.specs.declared.record.Slot.{Slot};
ghost use Rattle.class_table.specs.declared.record.Place.{Place};
ghost use Rattle.class_table.specs.Slots.{Slots};
ghost use Rattle.class_table.specs.Changing.{HasSlot, HasRoomAt, former_place, with_live, with_source, source_in};
ghost use Rattle.class_table.specs.Lending.{with_tree, with_body};
ghost use Rattle.image_laws.specs.Orders.{HasOrders};

/// What `Image::set_live` does to a slot is undone by the same call with the place that it answered, which it may then
/// be given; and that second call answers the place of the first one, so that it can be undone too.
pub fn law_live_undone()
    ensures back { (s : Slots) (what : Slot) (place : Option ℕ) → HasOrders s → with_live (with_live s what place) what (former_place s what) ≡ s }
    ensures room { (s : Slots) (what : Slot) (place : Option ℕ) → HasOrders s → HasRoomAt (with_live s what place) what (former_place s what) }
    ensures place { (s : Slots) (what : Slot) (place : Option ℕ) → HasOrders s → HasRoomAt s what place → former_place (with_live s what place) what ≡ place }
    ensures orders { (s : Slots) (what : Slot) (place : Option ℕ) → HasOrders s → HasSlot s what → HasOrders (with_live s what place) }
{}

/// What `Image::swap_class`, `Image::swap_method` and `Image::swap_doit` do is undone by the same call with the record
/// that came out; and no other slot changes.
pub fn law_swap_undone()
    ensures class { (s : Slots) (k : ℕ) (former other : ClassRec) → slice_get s.classes k ≡ Some former →
        record s { classes = slice_set (slice_set s.classes k other) k former } ≡ s }
    ensures method { (s : Slots) (k : ℕ) (former other : MethodRec) → slice_get s.methods k ≡ Some former →
        record s { methods = slice_set (slice_set s.methods k other) k former } ≡ s }
    ensures doit { (s : Slots) (n : ℕ) (former other : DoIt) → slice_get s.doits n ≡ Some former →
        record s { doits = slice_set (slice_set s.doits n other) n former } ≡ s }
    ensures other_classes { (s : Slots) (j k : ℕ) (other : ClassRec) → j ≢ k → slice_get (slice_set s.classes k other) j ≡ slice_get s.classes j }
    ensures other_methods { (s : Slots) (j k : ℕ) (other : MethodRec) → j ≢ k → slice_get (slice_set s.methods k other) j ≡ slice_get s.methods j }
    ensures other_doits { (s : Slots) (j n : ℕ) (other : DoIt) → j ≢ n → slice_get (slice_set s.doits n other) j ≡ slice_get s.doits j }
{}

/// What `Image::swap_source` does is undone by the same call with the source that came out, and so is another tree of a
/// method or another body of a do-it by the one that stood there.
pub fn law_source_undone()
    ensures back { (s : Slots) (place : Place) (former other : List ℕ) → source_in s place ≡ Some former →
        with_source (with_source s place other) place former ≡ s }
    ensures source { (s : Slots) (place : Place) (former other : List ℕ) → source_in s place ≡ Some former →
        source_in (with_source s place other) place ≡ Some other }
    ensures tree { (s : Slots) (k : ℕ) (m : MethodRec) (other : Method) → slice_get s.methods k ≡ Some m →
        with_tree (with_tree s k other) k m.tree ≡ s }
    ensures body { (s : Slots) (n : ℕ) (d : DoIt) (other : Sequence) → slice_get s.doits n ≡ Some d →
        with_body (with_body s n other) n d.body ≡ s }
{}
