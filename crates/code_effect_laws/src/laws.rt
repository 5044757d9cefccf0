// The laws. Each function does nothing; its contract is the law.
ghost use Rattle.std.specs.Prelude.{◌≡◌, List, None, Ok};
ghost use Rattle.std.specs.List.{AllByRecursion};
ghost use Rattle.token_model.specs.declared.kind.Dialect.TheVariants.{Second};
ghost use Rattle.st_kernel.specs.KernelText.{prelude_text};
ghost use Rattle.image_model.specs.Image.{ImageOf};
ghost use Rattle.image_model.specs.Valid.{IsFileable, IsValid};
ghost use Rattle.image_model.specs.Words.{text_words};
ghost use Rattle.file_model.specs.Fileable.{reading_of};
ghost use Rattle.file_model.specs.Filing.{Text};
ghost use Rattle.file_model.specs.Reading.{IsImageOf, IsKernelOf};
ghost use Rattle.file_model.specs.Written.{file_of};
ghost use Rattle.file_rereading.specs.Rereading.{IsWithinLimits, KernelFirst, with_heads};
ghost use Rattle.rename_model.specs.ClassRenamed.{canonical};
ghost use Rattle.command_model.specs.Asked.{text_asked};
ghost use Rattle.command_model.specs.Commands.{CommandOf};
ghost use Rattle.command_model.specs.Effects.{effect};
ghost use Rattle.command_model.specs.Judged.{first_false};
ghost use Rattle.command_model.specs.Spelled.{IsSpelled, MayBeFiled};
ghost use Rattle.history_model.specs.Rules.{Asks};
ghost use Rattle.session_model.specs.Scripts.{Request, History, verdict_in};
ghost use Rattle.kept_runs.specs.WellSpelled.{HasItsSetter, IsWellSpelledAction};

use kernel_image::{
    every_image_is_read_again, every_image_is_valid, kernel_has_these_classes,
    kernel_has_these_methods, kernel_is_valid, kernel_knows_its_names,
};

/// Where no condition of a command is false in a valid image, whether it moves code or not, the image that the command makes of
/// it is valid too; it can be written where the image before could be; and where the classes and methods of the kernel stood
/// before those of the user, they do still. Of a method that is added it is asked that its text spells its tree, and for
/// writing, that the text is not empty and begins with no blank; of a literal that messages are to pass, that some text spells
/// it alone; of a setter that is made, that it has the names that belong to its variable.
pub fn law_code_effect_valid()
    ensures valid { (kernel image : ImageOf Text) (command : CommandOf Text) → IsKernelOf Second prelude_text kernel → IsValid text_words (reading_of Second kernel) image →
        IsSpelled command → HasItsSetter command → first_false text_asked image command ≡ None →
        IsValid text_words (reading_of Second kernel) (effect text_asked canonical command image) }
    ensures fileable { (kernel image : ImageOf Text) (command : CommandOf Text) → IsKernelOf Second prelude_text kernel → IsValid text_words (reading_of Second kernel) image →
        IsSpelled command → HasItsSetter command → MayBeFiled command → first_false text_asked image command ≡ None →
        IsFileable (reading_of Second kernel) image → IsFileable (reading_of Second kernel) (effect text_asked canonical command image) }
    ensures first { (kernel image : ImageOf Text) (command : CommandOf Text) → IsKernelOf Second prelude_text kernel → IsValid text_words (reading_of Second kernel) image →
        IsSpelled command → HasItsSetter command → first_false text_asked image command ≡ None →
        KernelFirst kernel image → KernelFirst kernel (effect text_asked canonical command image) }
{
    kernel_has_these_classes();
    kernel_has_these_methods();
    kernel_is_valid();
    kernel_knows_its_names();
}

/// So it is after each script that is accepted, composites, undo and redo among its lines, whatever its commands are.
pub fn law_script_images()
    ensures valid { (kernel i : ImageOf Text) (script : List Request) (h : History) → IsKernelOf Second prelude_text kernel → IsValid text_words (reading_of Second kernel) i →
        AllByRecursion (Asks IsWellSpelledAction) script → verdict_in i script ≡ Ok h → IsValid text_words (reading_of Second kernel) h.now.image }
    ensures fileable { (kernel i : ImageOf Text) (script : List Request) (h : History) → IsKernelOf Second prelude_text kernel → IsValid text_words (reading_of Second kernel) i →
        AllByRecursion (Asks IsWellSpelledAction) script → verdict_in i script ≡ Ok h → IsFileable (reading_of Second kernel) i → IsFileable (reading_of Second kernel) h.now.image }
    ensures first { (kernel i : ImageOf Text) (script : List Request) (h : History) → IsKernelOf Second prelude_text kernel → IsValid text_words (reading_of Second kernel) i →
        AllByRecursion (Asks IsWellSpelledAction) script → verdict_in i script ≡ Ok h → KernelFirst kernel i → KernelFirst kernel h.now.image }
{
    kernel_has_these_classes();
    kernel_has_these_methods();
    kernel_is_valid();
    kernel_knows_its_names();
}

/// And so it is of each such script in the image of each file-out. Where the image after is within the limits of a file, its
/// text is read again as that image, with the do-its at its head counted anew.
pub fn law_script_texts()
    ensures valid { (text : Text) (i : ImageOf Text) (script : List Request) (h : History) → (is : IsImageOf Second prelude_text text i) →
        AllByRecursion (Asks IsWellSpelledAction) script → verdict_in i script ≡ Ok h → IsValid text_words (reading_of Second is.kernel) h.now.image }
    ensures read_again { (text : Text) (i : ImageOf Text) (script : List Request) (h : History) → IsImageOf Second prelude_text text i →
        AllByRecursion (Asks IsWellSpelledAction) script → verdict_in i script ≡ Ok h → IsWithinLimits h.now.image →
        IsImageOf Second prelude_text (file_of h.now.image) (with_heads h.now.image) }
{
    law_script_images();
    every_image_is_valid();
    every_image_is_read_again();
}
