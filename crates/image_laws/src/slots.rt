// Laws of images of slots that stay valid. Each function does nothing; its contract is the law.
ghost use Rattle.std.specs.Prelude.{◌≡◌, ℕ, false, slice_get, Some, None};
ghost use Rattle.rb_base.specs.Names.{name_at};
ghost use Rattle.image_model.specs.Image.{map_class};
ghost use Rattle.image_model.specs.Words.{text_words};
ghost use Rattle.image_model.specs.Valid.{SuperclassesStandBefore, IsValid};
ghost use Rattle.image_model.specs.Grown.{IsNewClass};
ghost use Rattle.class_table.specs.declared.record.ClassRec.{ClassRec};
ghost use Rattle.class_table.specs.declared.record.Slot.TheVariants as slot;
ghost use Rattle.class_table.specs.Slots.{Slots};
ghost use Rattle.class_table.specs.View.{class_of, image_of};
ghost use Rattle.class_table.specs.Valid.{IsLive, IsOrderly, SuperclassesFirst};
ghost use Rattle.class_table.specs.Kept.{FitsClass, IsAboveNothing};
ghost use Rattle.class_table.specs.Changing.{with_live};
ghost use Rattle.image_laws.specs.Placed.{FollowsSuperclass};

use image_model::Reading;
use rb_base::Text;

/// The image of slots stays valid where a live class that is none of the kernel and has no live class or method below it
/// is taken out, and where a class that is not live and is a new one of the image is put in behind its superclass.
pub fn law_classes_valid<R: Reading<Text>>()
    ensures taken_out { (s : Slots) (k : ℕ) (c : ClassRec) → IsOrderly s → IsValid text_words R.reading (image_of s) → IsLive s.class_order k →
        slice_get s.classes k ≡ Some c → c.kernel ≡ false → IsAboveNothing s k → IsValid text_words R.reading (image_of (with_live s (slot.Class k) None)) }
    ensures put_in { (s : Slots) (k p : ℕ) (c : ClassRec) → IsOrderly s → IsValid text_words R.reading (image_of s) → (IsLive s.class_order k → ⊥) →
        slice_get s.classes k ≡ Some c → IsNewClass text_words R.reading (image_of s) (map_class (name_at s.names) (class_of s.classes c)) →
        FollowsSuperclass (image_of s) p (map_class (name_at s.names) (class_of s.classes c)) →
        IsValid text_words R.reading (image_of (with_live s (slot.Class k) (Some p))) }
{}

/// An image is still orderly after a class that fits its slot is put into the order at any place.
pub fn law_class_orderly()
    ensures { (s : Slots) (k p : ℕ) (c : ClassRec) → IsOrderly s → slice_get s.classes k ≡ Some c → FitsClass s k c →
        IsOrderly (with_live s (slot.Class k) (Some p)) }
{}

/// In a valid image each superclass stands before its subclasses in the order of the live classes too, as
/// `Image::tree_of` wants it.
pub fn law_superclasses_first()
    ensures { (s : Slots) → IsOrderly s → SuperclassesStandBefore (image_of s).classes → SuperclassesFirst s.classes s.class_order }
{}
