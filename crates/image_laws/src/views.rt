// Laws of the image in which a slot is put in at a place or taken out. Each function does nothing; its contract is the law.
ghost use Rattle.std.specs.Prelude.{◌≡◌, ℕ, slice_get, option_map, None, Some};
ghost use Rattle.rb_base.specs.Names.{name_at};
ghost use Rattle.image_model.specs.Image.{map_class, map_entry};
ghost use Rattle.class_table.specs.declared.record.ClassRec.{ClassRec};
ghost use Rattle.class_table.specs.declared.record.MethodRec.{MethodRec};
ghost use Rattle.class_table.specs.declared.record.Slot.TheVariants as slot;
ghost use Rattle.class_table.specs.Slots.{Slots};
ghost use Rattle.class_table.specs.View.{class_of, class_at, entry_of, entry_at, image_of};
ghost use Rattle.class_table.specs.Changing.{former_place, with_live};
ghost use Rattle.image_laws.specs.Placed.{without_class, with_class_at, without_method, with_method_at};
ghost use Rattle.image_laws.specs.Orders.{HasOrders};

/// A class that is taken out of the order of the live ones is missing from its place in the image, and one that is put in
/// stands at the place that was given. Nothing else in the image changes, and nothing at all where a class that is not
/// live is taken out.
pub fn law_classes_live()
    ensures there { (s : Slots) (k p : ℕ) → HasOrders s → former_place s (slot.Class k) ≡ Some p →
        slice_get (image_of s).classes p ≡ option_map (map_class (name_at s.names)) (class_at s k) }
    ensures taken_out { (s : Slots) (k p : ℕ) → HasOrders s → former_place s (slot.Class k) ≡ Some p →
        image_of (with_live s (slot.Class k) None) ≡ without_class (image_of s) p }
    ensures not_live { (s : Slots) (k : ℕ) → former_place s (slot.Class k) ≡ None → with_live s (slot.Class k) None ≡ s }
    ensures put_in { (s : Slots) (k p : ℕ) (c : ClassRec) → HasOrders s → slice_get s.classes k ≡ Some c →
        image_of (with_live s (slot.Class k) (Some p)) ≡ with_class_at (image_of (with_live s (slot.Class k) None)) p (map_class (name_at s.names) (class_of s.classes c)) }
{}

/// The same of methods.
pub fn law_methods_live()
    ensures there { (s : Slots) (k p : ℕ) → HasOrders s → former_place s (slot.Method k) ≡ Some p →
        slice_get (image_of s).methods p ≡ option_map (map_entry (name_at s.names)) (entry_at s k) }
    ensures taken_out { (s : Slots) (k p : ℕ) → HasOrders s → former_place s (slot.Method k) ≡ Some p →
        image_of (with_live s (slot.Method k) None) ≡ without_method (image_of s) p }
    ensures not_live { (s : Slots) (k : ℕ) → former_place s (slot.Method k) ≡ None → with_live s (slot.Method k) None ≡ s }
    ensures put_in { (s : Slots) (k p : ℕ) (m : MethodRec) → HasOrders s → slice_get s.methods k ≡ Some m →
        image_of (with_live s (slot.Method k) (Some p)) ≡ with_method_at (image_of (with_live s (slot.Method k) None)) p (map_entry (name_at s.names) (entry_of s.classes m)) }
{}
