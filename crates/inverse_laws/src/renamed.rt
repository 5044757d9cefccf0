// The laws of renamed images the other way. The function does nothing; its contract is the law, for all images whose names
// are texts.
ghost use Rattle.std.specs.Prelude.{◌≡◌, ◌≢◌, true, false, [], ◌∷◌};
ghost use Rattle.rb_base.specs.Names.{text_eq};
ghost use Rattle.scope_model.specs.SpecialNames.{is_pseudo_variable};
ghost use Rattle.image_model.specs.Image.{ImageOf};
ghost use Rattle.image_model.specs.Words.{text_words};
ghost use Rattle.image_model.specs.Means.{VariableKind, of_instance, of_class_side, of_class};
ghost use Rattle.st_kernel.specs.Selectors.{is_control};
ghost use Rattle.run_model.specs.Values.{Name};
ghost use Rattle.run_model.specs.Renamings.{no_renaming, OfClass, MethodName, class_image, selector_image, shared_image, instance_image, class_side_image, temporary_image};
ghost use Rattle.mapped_model.specs.RenamedRuns.{RunsAsRenamed};
ghost use Rattle.mapped_model.specs.NamesOfImages.{names_in};
ghost use Rattle.rename_model.specs.CommandWords.{is_good_class_name};
ghost use Rattle.rename_model.specs.Conditions.{is_user_class, is_name_unused, has_variable, is_variable_free, is_selector_fresh};
ghost use Rattle.rename_model.specs.ClassRenamed.{WritingOf, class_renamed};
ghost use Rattle.rename_model.specs.SelectorRenamed.{selector_renamed};
ghost use Rattle.rename_model.specs.VariableRenamed.{variable_renamed};
ghost use Rattle.rename_model.specs.OneRenamed.{one_selector, one_variable};
ghost use Rattle.rename_laws.specs.BehindKernel.{IsBehindKernel};
ghost use Rattle.rename_laws.specs.VariablesOnce.{HasVariablesOnce};
ghost use Rattle.command_model.specs.Renamings.{one_class};
ghost use Rattle.inverse_laws.specs.Inverse.{inverse, TakesBack};

use crate::laws::law_matched_back;
use rename_laws::{law_renamed_class, law_renamed_selector, law_renamed_variable_of};

/// An image runs as each image does that a renaming of one class, one selector or one variable makes of it, with the inverse
/// maps, under the conditions under which that one runs as it does with the new names: the new name is not in use before, so
/// that the inverse maps give each name in use back.
pub fn law_renamed_back()
    ensures class_back { (i : ImageOf Name) (c d : Name) → IsBehindKernel i → is_good_class_name d ≡ true →
        is_name_unused text_eq i d ≡ true → TakesBack (names_in i) (one_class c d) (inverse (one_class c d)) }
    ensures selector_back { (i : ImageOf Name) (s t : Name) → is_control t ≡ false → is_selector_fresh text_eq i t ≡ true →
        TakesBack (names_in i) (one_selector s t) (inverse (one_selector s t)) }
    ensures class { (writing : WritingOf Name) (i : ImageOf Name) (c d : Name) → IsBehindKernel i →
        is_user_class text_eq i c ≡ true → is_good_class_name d ≡ true → is_name_unused text_eq i d ≡ true →
        RunsAsRenamed (class_renamed text_words writing i c d) i (inverse (one_class c d)) }
    ensures selector { (writing : WritingOf Name) (i : ImageOf Name) (s t : Name) → is_control s ≡ false → is_control t ≡ false →
        is_selector_fresh text_eq i t ≡ true →
        RunsAsRenamed (selector_renamed text_eq writing i s t) i (inverse (one_selector s t)) }
    ensures instance { (writing : WritingOf Name) (i : ImageOf Name) (c x y : Name) → HasVariablesOnce of_instance i →
        is_user_class text_eq i c ≡ true → has_variable text_eq i of_instance c x ≡ true → is_variable_free text_eq i c y ≡ true →
        is_pseudo_variable y ≡ false →
        RunsAsRenamed (variable_renamed text_words writing i of_instance c x y) i (inverse (one_variable i of_instance c x y)) }
    ensures class_side { (writing : WritingOf Name) (i : ImageOf Name) (c x y : Name) → HasVariablesOnce of_class_side i →
        is_user_class text_eq i c ≡ true → has_variable text_eq i of_class_side c x ≡ true → is_variable_free text_eq i c y ≡ true →
        is_pseudo_variable y ≡ false →
        RunsAsRenamed (variable_renamed text_words writing i of_class_side c x y) i (inverse (one_variable i of_class_side c x y)) }
    ensures shared { (writing : WritingOf Name) (i : ImageOf Name) (c x y : Name) → is_name_unused text_eq i y ≡ true →
        is_pseudo_variable y ≡ false →
        RunsAsRenamed (variable_renamed text_words writing i of_class c x y) i (inverse (one_variable i of_class c x y)) }
{
    law_matched_back();
    law_renamed_class();
    law_renamed_selector();
    law_renamed_variable_of();
}
