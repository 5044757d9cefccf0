// The law of the names that inverse maps give back. The function does nothing; its contract is the law, for all names.
ghost use Rattle.std.specs.Prelude.{◌≡◌, ◌≢◌, Bool, IsTrue};
ghost use Rattle.image_model.specs.Image.{ImageOf};
ghost use Rattle.image_model.specs.Means.{of_instance, of_class_side, of_class};
ghost use Rattle.run_model.specs.Values.{Name};
ghost use Rattle.run_model.specs.Renamings.{OfClass, MethodName, Renaming, class_image, selector_image, shared_image, instance_image, class_side_image, temporary_image};
ghost use Rattle.run_model.specs.Matched.{AreMatched};
ghost use Rattle.mapped_model.specs.NamesInUse.{NamesInUse};
ghost use Rattle.mapped_model.specs.NamesOfImages.{HasOrderedClasses, names_in};
ghost use Rattle.mapped_model.specs.RenamedVariables.{stands_above};
ghost use Rattle.rename_model.specs.OneRenamed.{one_selector, one_variable, one_temporary};
ghost use Rattle.command_model.specs.Renamings.{one_class, one_moved};
ghost use Rattle.inverse_laws.specs.Inverse.{inverse, inverse_on, KeepsApart, TakesBack};

use crate::laws::law_matched_back;
use rename_laws::law_renamed_variable_of;

/// The inverse maps of a renaming of one thing give each name back that the renaming takes, but for the new name itself: that of
/// each class, each selector, each class variable of a definer, each instance variable and class-instance variable of a class
/// (in a class that is not the one of the renamed variable and does not stand below it, also the new name), and each temporary
/// of a method.
pub fn law_names_back()
    ensures class { (c d n : Name) → n ≢ d → class_image (inverse (one_class c d)) (class_image (one_class c d) n) ≡ n }
    ensures selector { (s t n : Name) → n ≢ t → selector_image (inverse (one_selector s t)) (selector_image (one_selector s t) n) ≡ n }
    ensures shared { (i : ImageOf Name) (c x y : Name) (k : OfClass) → k ≢ (c, y) →
        shared_image (inverse (one_variable i of_class c x y)) (shared_image (one_variable i of_class c x y) k) ≡ k }
    ensures moved { (c x d : Name) (k : OfClass) → k ≢ (d, x) → shared_image (inverse (one_moved c x d)) (shared_image (one_moved c x d) k) ≡ k }
    ensures instance { (i : ImageOf Name) (c x y : Name) (k : OfClass) → HasOrderedClasses i → (IsTrue (stands_above i c k.0) → k.1 ≢ y) →
        instance_image (inverse (one_variable i of_instance c x y)) (instance_image (one_variable i of_instance c x y) k) ≡ k }
    ensures class_side { (i : ImageOf Name) (c x y : Name) (k : OfClass) → HasOrderedClasses i → (IsTrue (stands_above i c k.0) → k.1 ≢ y) →
        class_side_image (inverse (one_variable i of_class_side c x y)) (class_side_image (one_variable i of_class_side c x y) k) ≡ k }
    ensures temporary { (c : Name) (meta : Bool) (s x y : Name) (t : MethodName × Name) → t ≢ ((c, meta, s), y) →
        temporary_image (inverse (one_temporary c meta s x y)) (temporary_image (one_temporary c meta s x y) t) ≡ t }
{
    law_renamed_variable_of();
}

/// A renaming that lets no two classes and no two selectors in use become one, such as that of a whole script may be, has inverse
/// maps on those names, which give them back. So where an image is matched by another one up to such a renaming, that other
/// image is matched by it up to these maps.
pub fn law_taken_back()
    ensures takes_back { (u : NamesInUse) (r : Renaming) → KeepsApart u r → TakesBack u r (inverse_on u r) }
    ensures matched { (i j : ImageOf Name) (r : Renaming) → KeepsApart (names_in i) r → AreMatched i j r → AreMatched j i (inverse_on (names_in i) r) }
{
    law_matched_back();
}
