// Laws of slots and the image for which they stand. Each function does nothing; its contract is the law.
ghost use Rattle.std.specs.Prelude.{◌≡◌, ◌<◌, ◌∷◌, [], ◌++◌, ℕ, Bool, List, length, nat_eq, slice_get, slice_set, Some, None, option_map, option_and_then};
ghost use Rattle.std.specs.List.{filter_map};
ghost use Rattle.rb_base.specs.Names.{name_at};
ghost use Rattle.image_model.specs.Image.{map_entry};
ghost use Rattle.image_model.specs.ImageNames.{ImageNames};
ghost use Rattle.image_model.specs.Words.{text_words, number_words};
ghost use Rattle.image_model.specs.Chain.{class_named, chain};
ghost use Rattle.image_model.specs.Lookup.{lookup};
ghost use Rattle.tree_model.specs.AllNames.{SequenceNames};
ghost use Rattle.st_tree.specs.View.{sequence_of};
ghost use Rattle.class_table.specs.declared.record.ClassRec.{ClassRec};
ghost use Rattle.class_table.specs.declared.record.MethodRec.{MethodRec};
ghost use Rattle.class_table.specs.declared.record.DoIt.{DoIt};
ghost use Rattle.class_table.specs.declared.record.Slot.TheVariants as slot;
ghost use Rattle.class_table.specs.Slots.{Slots};
ghost use Rattle.class_table.specs.View.{class_name, class_at, entry_at, number_image, image_of};
ghost use Rattle.class_table.specs.Valid.{IsLive, IsOrderly};
ghost use Rattle.class_table.specs.Kept.{FitsMethod, FitsClass, IsAboveNothing};
ghost use Rattle.class_table.specs.Changing.{with_live};
ghost use Rattle.class_table.specs.Finding.{named_in, chain_of, found_by_lookup};

/// What `Image::class_named` finds among the slots is the first class of the name in the image.
pub fn law_class_named()
    ensures { (s : Slots) (name : ℕ) → class_named nat_eq (number_image s).classes name ≡ option_and_then (class_at s) (named_in s.classes s.class_order name) }
{}

/// The chain of slots, of which `Image::chain_at` gives one by its number, is the chain of classes in the image.
pub fn law_chain()
    ensures { (s : Slots) (class : ℕ) → IsOrderly s → IsLive s.class_order class →
        chain nat_eq (number_image s).classes (class_name s.classes class) ≡ filter_map (class_at s) (chain_of s.classes s.class_order class) }
{}

/// What `Image::lookup` finds among the slots is the method that the message runs in the image, over the numbers of names
/// and over their texts.
pub fn law_lookup()
    ensures numbers { (s : Slots) (class : ℕ) (meta : Bool) (selector : ℕ) → IsOrderly s → IsLive s.class_order class →
        lookup (number_words s.names) (number_image s) (class_name s.classes class) meta selector ≡ option_and_then (entry_at s) (found_by_lookup s class meta selector) }
    ensures texts { (s : Slots) (class : ℕ) (meta : Bool) (selector : ℕ) → IsOrderly s → IsLive s.class_order class → selector < length s.names →
        lookup text_words (image_of s) (option_map (name_at s.names) (class_name s.classes class)) meta (name_at s.names selector)
        ≡ option_map (map_entry (name_at s.names)) (option_and_then (entry_at s) (found_by_lookup s class meta selector)) }
{}

/// Names are added at the end alone, and so they change no image.
pub fn law_names_added()
    ensures { (s : Slots) (more : List (List ℕ)) → ImageNames (λ n. n < length s.names) (number_image s) →
        image_of (record s { names = s.names ++ more }) ≡ image_of s }
{}

/// Changes of methods after which an image is still orderly: another method in a slot, a new method, and a method that is
/// taken out of the order or put into it. A method that is live afterwards must fit.
pub fn law_methods_orderly()
    ensures swapped { (s : Slots) (k : ℕ) (m : MethodRec) → IsOrderly s → (IsLive s.method_order k → FitsMethod s m) →
        IsOrderly (record s { methods = slice_set s.methods k m }) }
    ensures added { (s : Slots) (m : MethodRec) → IsOrderly s → FitsMethod s m →
        IsOrderly (record s { methods = s.methods ++ m ∷ []; method_order = s.method_order ++ length s.methods ∷ [] }) }
    ensures taken_out { (s : Slots) (k : ℕ) → IsOrderly s → IsOrderly (with_live s (slot.Method k) None) }
    ensures put_in { (s : Slots) (k at : ℕ) (m : MethodRec) → IsOrderly s → slice_get s.methods k ≡ Some m → FitsMethod s m →
        IsOrderly (with_live s (slot.Method k) (Some at)) }
{}

/// Changes of classes after which an image is still orderly: another class in a slot, which must fit where the slot is
/// live; a new class that fits; and a class that is taken out of the order, where no live class or method is below it.
pub fn law_classes_orderly()
    ensures swapped { (s : Slots) (k : ℕ) (c : ClassRec) → IsOrderly s → (IsLive s.class_order k → FitsClass s k c) →
        IsOrderly (record s { classes = slice_set s.classes k c }) }
    ensures added { (s : Slots) (c : ClassRec) → IsOrderly s → FitsClass s (length s.classes) c →
        IsOrderly (record s { classes = s.classes ++ c ∷ []; class_order = s.class_order ++ length s.classes ∷ [] }) }
    ensures taken_out { (s : Slots) (k : ℕ) → IsOrderly s → IsAboveNothing s k → IsOrderly (with_live s (slot.Class k) None) }
{}

/// An image is still orderly after a do-it is swapped with one whose names have texts, or such a do-it is added.
pub fn law_doits_orderly()
    ensures swapped { (s : Slots) (n : ℕ) (d : DoIt) → IsOrderly s → SequenceNames (λ n. n < length s.names) (sequence_of d.body) →
        IsOrderly (record s { doits = slice_set s.doits n d }) }
    ensures added { (s : Slots) (d : DoIt) → IsOrderly s → SequenceNames (λ n. n < length s.names) (sequence_of d.body) →
        IsOrderly (record s { doits = s.doits ++ d ∷ [] }) }
{}
