// The laws of commands the other way. Each function does nothing; its contract is the law.
ghost use Rattle.std.specs.Prelude.{◌≡◌, None};
ghost use Rattle.token_model.specs.declared.kind.Dialect.{Dialect};
ghost use Rattle.st_kernel.specs.KernelText.{prelude_text};
ghost use Rattle.image_model.specs.Image.{ImageOf};
ghost use Rattle.image_model.specs.Words.{text_words};
ghost use Rattle.image_model.specs.Valid.{IsValid};
ghost use Rattle.run_model.specs.Matched.{AreMatched};
ghost use Rattle.mapped_model.specs.NamesOfImages.{names_in};
ghost use Rattle.mapped_model.specs.RenamedRuns.{RunsAsRenamed};
ghost use Rattle.file_model.specs.Filing.{Text};
ghost use Rattle.file_model.specs.Fileable.{reading_of};
ghost use Rattle.file_model.specs.Reading.{IsImageOf, IsKernelOf};
ghost use Rattle.rename_model.specs.ClassRenamed.{canonical};
ghost use Rattle.command_model.specs.Asked.{text_asked};
ghost use Rattle.command_model.specs.Commands.{CommandOf, KeepsShape, MovesNoCode};
ghost use Rattle.command_model.specs.Effects.{effect};
ghost use Rattle.command_model.specs.Judged.{first_false};
ghost use Rattle.command_model.specs.Renamings.{renaming_of};
ghost use Rattle.inverse_laws.specs.Inverse.{inverse, TakesBack};

use crate::laws::law_matched_back;
use crate::renamed::law_renamed_back;
use file_out_laws::{every_image_may_be_renamed, law_commands, law_matched_commands};
use kernel_image::every_image_is_valid;

/// Where no condition of a command is false of a valid image behind the kernel, the inverse of what the command renames gives
/// each class and each selector of the image its name back. So what a command that moves no code makes of the image is matched
/// by the image up to that inverse, and where the command keeps the shape of code, the image runs as what it makes of it.
pub fn law_commands_back()
    ensures takes_back { (dialect : Dialect) (kernel image : ImageOf Text) (command : CommandOf Text) → IsKernelOf dialect prelude_text kernel →
        IsValid text_words (reading_of dialect kernel) image → first_false text_asked image command ≡ None →
        TakesBack (names_in image) (renaming_of image command) (inverse (renaming_of image command)) }
    ensures matched { (dialect : Dialect) (kernel image : ImageOf Text) (command : CommandOf Text) → IsKernelOf dialect prelude_text kernel →
        IsValid text_words (reading_of dialect kernel) image → MovesNoCode command → first_false text_asked image command ≡ None →
        AreMatched (effect text_asked canonical command image) image (inverse (renaming_of image command)) }
    ensures runs { (dialect : Dialect) (kernel image : ImageOf Text) (command : CommandOf Text) → IsKernelOf dialect prelude_text kernel →
        IsValid text_words (reading_of dialect kernel) image → KeepsShape command → first_false text_asked image command ≡ None →
        RunsAsRenamed (effect text_asked canonical command image) image (inverse (renaming_of image command)) }
{
    law_matched_back();
    law_renamed_back();
    every_image_may_be_renamed();
    law_commands();
    law_matched_commands();
}

/// So it is of the image of each file-out that is read behind the kernel.
pub fn law_command_files_back()
    ensures matched { (dialect : Dialect) (text : Text) (image : ImageOf Text) (command : CommandOf Text) → IsImageOf dialect prelude_text text image →
        MovesNoCode command → first_false text_asked image command ≡ None →
        AreMatched (effect text_asked canonical command image) image (inverse (renaming_of image command)) }
    ensures runs { (dialect : Dialect) (text : Text) (image : ImageOf Text) (command : CommandOf Text) → IsImageOf dialect prelude_text text image →
        KeepsShape command → first_false text_asked image command ≡ None →
        RunsAsRenamed (effect text_asked canonical command image) image (inverse (renaming_of image command)) }
{
    every_image_is_valid();
    law_commands_back();
}
