// The law of a renamed variable of a class. The function does nothing; its contract is the law, for all images whose names
// are texts.
ghost use Rattle.std.specs.Prelude.{◌≡◌, true, false};
ghost use Rattle.rb_base.specs.Names.{text_eq};
ghost use Rattle.scope_model.specs.SpecialNames.{is_pseudo_variable};
ghost use Rattle.image_model.specs.Image.{ImageOf};
ghost use Rattle.image_model.specs.Words.{text_words};
ghost use Rattle.image_model.specs.Means.{of_instance, of_class_side, of_class};
ghost use Rattle.run_model.specs.Values.{Name};
ghost use Rattle.run_model.specs.Renamings.{OfClass, instance_image, class_side_image};
ghost use Rattle.mapped_model.specs.RenamedRuns.{RunsAsRenamed};
ghost use Rattle.mapped_model.specs.NamesOfImages.{HasOrderedClasses};
ghost use Rattle.mapped_model.specs.RenamedVariables.{renamed_below};
ghost use Rattle.rename_model.specs.Conditions.{is_user_class, has_variable, is_variable_free, is_name_unused};
ghost use Rattle.rename_model.specs.ClassRenamed.{WritingOf};
ghost use Rattle.rename_model.specs.VariableRenamed.{variable_renamed};
ghost use Rattle.rename_model.specs.OneRenamed.{one_variable};
ghost use Rattle.rename_laws.specs.VariablesOnce.{HasVariablesOnce};

use mapped_model::{
    law_changed_images, law_matched_by_maps, law_matched_images, law_renamed_variable,
};

/// An image is matched, up to the renaming of one variable, by the image in which a class calls a variable of its own by a new
/// name. For an instance variable or a class-instance variable, the class is one of the user, neither it nor a class above or
/// below it defines the new name, and no method of the class or below has it; and in the image no variable is defined twice on
/// a chain, and the classes from that of do-its upwards are the kernel's. For a class variable, nothing has the new name, and
/// nothing else is asked of the image or the class. No pseudo-variable is the new name. However sources are written, the runs
/// are the same. The renaming has the new name for an instance variable or a class-instance variable in each class of the
/// image that is the class itself or stands below it, and nowhere else.
pub fn law_renamed_variable_of()
    ensures instance { (writing : WritingOf Name) (i : ImageOf Name) (c x y : Name) → HasVariablesOnce of_instance i →
        is_user_class text_eq i c ≡ true → has_variable text_eq i of_instance c x ≡ true → is_variable_free text_eq i c y ≡ true →
        is_pseudo_variable y ≡ false →
        RunsAsRenamed i (variable_renamed text_words writing i of_instance c x y) (one_variable i of_instance c x y) }
    ensures class_side { (writing : WritingOf Name) (i : ImageOf Name) (c x y : Name) → HasVariablesOnce of_class_side i →
        is_user_class text_eq i c ≡ true → has_variable text_eq i of_class_side c x ≡ true → is_variable_free text_eq i c y ≡ true →
        is_pseudo_variable y ≡ false →
        RunsAsRenamed i (variable_renamed text_words writing i of_class_side c x y) (one_variable i of_class_side c x y) }
    ensures shared { (writing : WritingOf Name) (i : ImageOf Name) (c x y : Name) → is_name_unused text_eq i y ≡ true →
        is_pseudo_variable y ≡ false → RunsAsRenamed i (variable_renamed text_words writing i of_class c x y) (one_variable i of_class c x y) }
    ensures instance_names { (i : ImageOf Name) (c x y : Name) (k : OfClass) → HasOrderedClasses i →
        instance_image (one_variable i of_instance c x y) k ≡ (k.0, renamed_below i c x y k) }
    ensures class_side_names { (i : ImageOf Name) (c x y : Name) (k : OfClass) → HasOrderedClasses i →
        class_side_image (one_variable i of_class_side c x y) k ≡ (k.0, renamed_below i c x y k) }
{
    law_renamed_variable();
    law_changed_images();
    law_matched_images();
    law_matched_by_maps();
}
