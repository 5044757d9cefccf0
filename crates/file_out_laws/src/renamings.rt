// The laws. Each function does nothing; its contract is the law.
ghost use Rattle.std.specs.Prelude.{◌≡◌, true, [], ◌∷◌};
ghost use Rattle.rb_base.specs.Names.{text_eq};
ghost use Rattle.token_model.specs.declared.kind.Dialect.{Dialect};
ghost use Rattle.st_kernel.specs.KernelText.{prelude_text};
ghost use Rattle.image_model.specs.Image.{ImageOf};
ghost use Rattle.image_model.specs.Words.{text_words};
ghost use Rattle.image_model.specs.Means.{of_instance, of_class_side, of_class};
ghost use Rattle.image_model.specs.Valid.{IsValid};
ghost use Rattle.run_model.specs.Renamings.{no_renaming};
ghost use Rattle.mapped_model.specs.RenamedRuns.{RunsAsRenamed};
ghost use Rattle.file_model.specs.Filing.{Text};
ghost use Rattle.file_model.specs.Fileable.{reading_of};
ghost use Rattle.file_model.specs.Reading.{IsImageOf, IsKernelOf};
ghost use Rattle.rename_model.specs.CommandWords.{is_good_class_name, is_good_variable_name, text_command_words};
ghost use Rattle.rename_model.specs.Conditions.{is_user_class, is_name_unused, has_variable, is_variable_free, is_no_kernel_selector, is_selector_fresh};
ghost use Rattle.rename_model.specs.ClassRenamed.{canonical, class_renamed};
ghost use Rattle.rename_model.specs.SelectorRenamed.{selector_renamed};
ghost use Rattle.rename_model.specs.VariableRenamed.{variable_renamed};
ghost use Rattle.rename_laws.specs.BehindKernel.{IsBehindKernel};
ghost use Rattle.rename_model.specs.OneRenamed.{one_selector, one_variable};
ghost use Rattle.rename_laws.specs.VariablesOnce.{HasVariablesOnce};

use assignment_laws::law_assigned_names;
use kernel_image::{every_image_is_valid, kernel_has_these_classes};
use rename_laws::{law_renamed_class, law_renamed_selector, law_renamed_variable_of};

/// Each valid image behind the kernel, in either dialect, meets what the laws of renamings ask of an image.
pub fn every_image_may_be_renamed()
    ensures behind_kernel { (dialect : Dialect) (kernel image : ImageOf Text) → IsKernelOf dialect prelude_text kernel → IsValid text_words (reading_of dialect kernel) image → IsBehindKernel image }
    ensures instance_once { (dialect : Dialect) (kernel image : ImageOf Text) → IsKernelOf dialect prelude_text kernel → IsValid text_words (reading_of dialect kernel) image → HasVariablesOnce of_instance image }
    ensures class_side_once { (dialect : Dialect) (kernel image : ImageOf Text) → IsKernelOf dialect prelude_text kernel → IsValid text_words (reading_of dialect kernel) image → HasVariablesOnce of_class_side image }
{
    kernel_has_these_classes();
    law_assigned_names();
}

/// Where the conditions of a renaming hold of a valid image behind the kernel, the image that the renaming makes of it, with
/// what it changes written in canonical text, runs as it does, with the new names: so it is matched up to this renaming. The
/// new name of a class or a variable is one that such a thing may have. Of a class it is asked that it is one of the user and
/// that nothing has the new name; of a selector, that no code has or sends the new one, and that neither has a meaning of its
/// own or is the kernel's; of an instance variable or a class-instance variable, that a class of the user defines it, and that
/// the new name is free in the classes that know it and in their code; of a class variable, that nothing has the new name.
pub fn law_renamed_images()
    ensures class { (dialect : Dialect) (kernel image : ImageOf Text) (c d : Text) → IsKernelOf dialect prelude_text kernel → IsValid text_words (reading_of dialect kernel) image →
        is_user_class text_eq image c ≡ true → is_good_class_name d ≡ true → is_name_unused text_eq image d ≡ true →
        RunsAsRenamed image (class_renamed text_words canonical image c d) (record no_renaming { classes = (c, d) ∷ [] }) }
    ensures selector { (dialect : Dialect) (kernel image : ImageOf Text) (s t : Text) → IsKernelOf dialect prelude_text kernel → IsValid text_words (reading_of dialect kernel) image →
        is_no_kernel_selector text_eq text_command_words image s ≡ true → is_no_kernel_selector text_eq text_command_words image t ≡ true →
        is_selector_fresh text_eq image t ≡ true → RunsAsRenamed image (selector_renamed text_eq canonical image s t) (one_selector s t) }
    ensures instance { (dialect : Dialect) (kernel image : ImageOf Text) (c x y : Text) → IsKernelOf dialect prelude_text kernel → IsValid text_words (reading_of dialect kernel) image →
        is_user_class text_eq image c ≡ true → has_variable text_eq image of_instance c x ≡ true → is_good_variable_name y ≡ true →
        is_variable_free text_eq image c y ≡ true →
        RunsAsRenamed image (variable_renamed text_words canonical image of_instance c x y) (one_variable image of_instance c x y) }
    ensures class_side { (dialect : Dialect) (kernel image : ImageOf Text) (c x y : Text) → IsKernelOf dialect prelude_text kernel → IsValid text_words (reading_of dialect kernel) image →
        is_user_class text_eq image c ≡ true → has_variable text_eq image of_class_side c x ≡ true → is_good_variable_name y ≡ true →
        is_variable_free text_eq image c y ≡ true →
        RunsAsRenamed image (variable_renamed text_words canonical image of_class_side c x y) (one_variable image of_class_side c x y) }
    ensures shared { (dialect : Dialect) (kernel image : ImageOf Text) (c x y : Text) → IsKernelOf dialect prelude_text kernel → IsValid text_words (reading_of dialect kernel) image →
        is_good_class_name y ≡ true → is_name_unused text_eq image y ≡ true →
        RunsAsRenamed image (variable_renamed text_words canonical image of_class c x y) (one_variable image of_class c x y) }
{
    every_image_may_be_renamed();
    law_renamed_class();
    law_renamed_selector();
    law_renamed_variable_of();
}

/// So it is of the image of each file-out that is read behind the kernel.
pub fn law_renamed_files()
    ensures class { (dialect : Dialect) (text : Text) (image : ImageOf Text) (c d : Text) → IsImageOf dialect prelude_text text image →
        is_user_class text_eq image c ≡ true → is_good_class_name d ≡ true → is_name_unused text_eq image d ≡ true →
        RunsAsRenamed image (class_renamed text_words canonical image c d) (record no_renaming { classes = (c, d) ∷ [] }) }
    ensures selector { (dialect : Dialect) (text : Text) (image : ImageOf Text) (s t : Text) → IsImageOf dialect prelude_text text image →
        is_no_kernel_selector text_eq text_command_words image s ≡ true → is_no_kernel_selector text_eq text_command_words image t ≡ true →
        is_selector_fresh text_eq image t ≡ true → RunsAsRenamed image (selector_renamed text_eq canonical image s t) (one_selector s t) }
    ensures instance { (dialect : Dialect) (text : Text) (image : ImageOf Text) (c x y : Text) → IsImageOf dialect prelude_text text image →
        is_user_class text_eq image c ≡ true → has_variable text_eq image of_instance c x ≡ true → is_good_variable_name y ≡ true →
        is_variable_free text_eq image c y ≡ true →
        RunsAsRenamed image (variable_renamed text_words canonical image of_instance c x y) (one_variable image of_instance c x y) }
    ensures class_side { (dialect : Dialect) (text : Text) (image : ImageOf Text) (c x y : Text) → IsImageOf dialect prelude_text text image →
        is_user_class text_eq image c ≡ true → has_variable text_eq image of_class_side c x ≡ true → is_good_variable_name y ≡ true →
        is_variable_free text_eq image c y ≡ true →
        RunsAsRenamed image (variable_renamed text_words canonical image of_class_side c x y) (one_variable image of_class_side c x y) }
    ensures shared { (dialect : Dialect) (text : Text) (image : ImageOf Text) (c x y : Text) → IsImageOf dialect prelude_text text image →
        is_good_class_name y ≡ true → is_name_unused text_eq image y ≡ true →
        RunsAsRenamed image (variable_renamed text_words canonical image of_class c x y) (one_variable image of_class c x y) }
{
    every_image_is_valid();
    law_renamed_images();
}
