// The laws. Each function does nothing; its contract is the law.
ghost use Rattle.std.specs.Prelude.{◌≡◌, None};
ghost use Rattle.token_model.specs.declared.kind.Dialect.TheVariants.{Second};
ghost use Rattle.st_kernel.specs.KernelText.{prelude_text};
ghost use Rattle.image_model.specs.Image.{ImageOf};
ghost use Rattle.image_model.specs.Valid.{IsFileable, IsValid};
ghost use Rattle.image_model.specs.Words.{text_words};
ghost use Rattle.file_model.specs.Fileable.{reading_of};
ghost use Rattle.file_model.specs.Filing.{Text};
ghost use Rattle.file_model.specs.Reading.{IsKernelOf};
ghost use Rattle.file_rereading.specs.Rereading.{KernelFirst};
ghost use Rattle.rename_model.specs.ClassRenamed.{canonical};
ghost use Rattle.command_model.specs.Asked.{text_asked};
ghost use Rattle.command_model.specs.Commands.{CommandOf, MovesNoCode};
ghost use Rattle.command_model.specs.Effects.{effect};
ghost use Rattle.command_model.specs.Judged.{first_false};
ghost use Rattle.command_model.specs.Spelled.{IsSpelled, MayBeFiled};

use kernel_image::{
    kernel_has_these_classes, kernel_has_these_methods, kernel_is_valid, kernel_knows_its_names,
};

/// Where no condition of a command that moves no code is false in a valid image, the image that the command makes of it is valid too; it can be
/// written where the image before could be; and where the classes and methods of the kernel stood before those of the user,
/// they do still. Of a method that is added it is asked that its text spells its tree, and for writing, that the text is not
/// empty and begins with no blank; of a literal that messages are to pass, that some text spells it alone.
pub fn law_effect_valid()
    ensures valid { (kernel image : ImageOf Text) (command : CommandOf Text) → IsKernelOf Second prelude_text kernel → IsValid text_words (reading_of Second kernel) image →
        MovesNoCode command → IsSpelled command → first_false text_asked image command ≡ None → IsValid text_words (reading_of Second kernel) (effect text_asked canonical command image) }
    ensures fileable { (kernel image : ImageOf Text) (command : CommandOf Text) → IsKernelOf Second prelude_text kernel → IsValid text_words (reading_of Second kernel) image →
        MovesNoCode command → IsSpelled command → MayBeFiled command → first_false text_asked image command ≡ None →
        IsFileable (reading_of Second kernel) image → IsFileable (reading_of Second kernel) (effect text_asked canonical command image) }
    ensures first { (kernel image : ImageOf Text) (command : CommandOf Text) → IsKernelOf Second prelude_text kernel → IsValid text_words (reading_of Second kernel) image →
        MovesNoCode command → IsSpelled command → first_false text_asked image command ≡ None → KernelFirst kernel image → KernelFirst kernel (effect text_asked canonical command image) }
{
    kernel_has_these_classes();
    kernel_has_these_methods();
    kernel_is_valid();
    kernel_knows_its_names();
}
