// Laws of the image in which a record, a source or a tree is replaced. Each function does nothing; its contract is the law.
ghost use Rattle.std.specs.Prelude.{◌≡◌, ℕ, List, slice_get, slice_set, None, Some};
ghost use Rattle.rb_base.specs.Names.{name_at};
ghost use Rattle.tree_model.specs.Tree.{map_method, map_sequence};
ghost use Rattle.st_tree.specs.declared.tree.Method.{Method};
ghost use Rattle.st_tree.specs.declared.tree.Sequence.{Sequence};
ghost use Rattle.st_tree.specs.View.{method_of, sequence_of};
ghost use Rattle.image_model.specs.Image.{map_class, map_entry, map_doit};
ghost use Rattle.class_table.specs.declared.record.ClassRec.{ClassRec};
ghost use Rattle.class_table.specs.declared.record.MethodRec.{MethodRec};
ghost use Rattle.class_table.specs.declared.record.DoIt.{DoIt};
ghost use Rattle.class_table.specs.declared.record.Slot.TheVariants as slot;
ghost use Rattle.class_table.specs.declared.record.Place.TheVariants as place;
ghost use Rattle.class_table.specs.Slots.{Slots};
ghost use Rattle.class_table.specs.View.{class_of, entry_of, doit_of, image_of};
ghost use Rattle.class_table.specs.Changing.{former_place, with_source};
ghost use Rattle.class_table.specs.Lending.{with_tree, with_body};
ghost use Rattle.image_laws.specs.Orders.{HasOrders};
ghost use Rattle.image_laws.specs.Replacing.{with_other_class, with_other_method, with_other_doit, with_method_source, with_method_tree, with_doit_source, with_doit_body};

/// Another record in the slot of a class stands at the slot's place in the image, where it has the same name; nothing
/// else changes, and nothing at all where the slot is not live.
pub fn law_classes_swapped()
    ensures live { (s : Slots) (k p : ℕ) (former c : ClassRec) → HasOrders s → former_place s (slot.Class k) ≡ Some p → slice_get s.classes k ≡ Some former → c.name ≡ former.name →
        image_of (record s { classes = slice_set s.classes k c }) ≡ with_other_class (image_of s) p (map_class (name_at s.names) (class_of s.classes c)) }
    ensures not_live { (s : Slots) (k : ℕ) (former c : ClassRec) → former_place s (slot.Class k) ≡ None → slice_get s.classes k ≡ Some former → c.name ≡ former.name →
        image_of (record s { classes = slice_set s.classes k c }) ≡ image_of s }
{}

/// Another record in the slot of a method stands at the slot's place in the image; nothing else changes, and nothing at
/// all where the slot is not live. The same holds of its source and its tree alone.
pub fn law_methods_swapped()
    ensures live { (s : Slots) (k p : ℕ) (m : MethodRec) → HasOrders s → former_place s (slot.Method k) ≡ Some p →
        image_of (record s { methods = slice_set s.methods k m }) ≡ with_other_method (image_of s) p (map_entry (name_at s.names) (entry_of s.classes m)) }
    ensures not_live { (s : Slots) (k : ℕ) (m : MethodRec) → former_place s (slot.Method k) ≡ None →
        image_of (record s { methods = slice_set s.methods k m }) ≡ image_of s }
    ensures source { (s : Slots) (k p : ℕ) (text : List ℕ) → HasOrders s → former_place s (slot.Method k) ≡ Some p →
        image_of (with_source s (place.Method k) text) ≡ with_method_source (image_of s) p text }
    ensures tree { (s : Slots) (k p : ℕ) (t : Method) → HasOrders s → former_place s (slot.Method k) ≡ Some p →
        image_of (with_tree s k t) ≡ with_method_tree (image_of s) p (map_method (name_at s.names) (method_of t)) }
{}

/// Another do-it of a number stands at that number in the image, and nothing else changes. The same holds of its source
/// and its body alone.
pub fn law_doits_swapped()
    ensures whole { (s : Slots) (n : ℕ) (d : DoIt) →
        image_of (record s { doits = slice_set s.doits n d }) ≡ with_other_doit (image_of s) n (map_doit (name_at s.names) (doit_of d)) }
    ensures source { (s : Slots) (n : ℕ) (text : List ℕ) →
        image_of (with_source s (place.DoIt n) text) ≡ with_doit_source (image_of s) n text }
    ensures body { (s : Slots) (n : ℕ) (body : Sequence) →
        image_of (with_body s n body) ≡ with_doit_body (image_of s) n (map_sequence (name_at s.names) (sequence_of body)) }
{}
