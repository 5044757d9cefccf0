// The laws. Each function does nothing; its contract is the law.
ghost use Rattle.std.specs.Prelude.{◌≡◌, None};
ghost use Rattle.token_model.specs.declared.kind.Dialect.{Dialect};
ghost use Rattle.st_kernel.specs.KernelText.{prelude_text};
ghost use Rattle.image_model.specs.Image.{ImageOf};
ghost use Rattle.image_model.specs.Words.{text_words};
ghost use Rattle.image_model.specs.Valid.{IsValid};
ghost use Rattle.run_model.specs.Matched.{AreMatched};
ghost use Rattle.mapped_model.specs.RenamedRuns.{RunsAsRenamed};
ghost use Rattle.file_model.specs.Filing.{Text};
ghost use Rattle.file_model.specs.Fileable.{reading_of};
ghost use Rattle.file_model.specs.Reading.{IsImageOf, IsKernelOf};
ghost use Rattle.rename_model.specs.ClassRenamed.{canonical};
ghost use Rattle.command_model.specs.Asked.{text_asked};
ghost use Rattle.command_model.specs.Commands.{CommandOf, KeepsShape, MovesNoCode};
ghost use Rattle.command_model.specs.Effects.{effect};
ghost use Rattle.command_model.specs.Judged.{first_false};
ghost use Rattle.command_model.specs.Renamings.{renaming_of};

use crate::lookups::{every_image_has_kernel_chains, law_method_images};
use crate::parameters::law_changed_parameters;
use crate::renamings::{every_image_may_be_renamed, law_renamed_images};
use crate::temporaries::law_renamed_temporaries;
use kernel_image::every_image_is_valid;
use lookup_laws::law_class_commands;
use variable_laws::law_variable_commands;

/// Where no condition of a command is false of a valid image behind the kernel, what the command makes of the image runs as it does,
/// up to what the command renames, and so matches it: each command on classes, variables, selectors or methods.
pub fn law_commands()
    ensures { (dialect : Dialect) (kernel image : ImageOf Text) (command : CommandOf Text) → IsKernelOf dialect prelude_text kernel →
        IsValid text_words (reading_of dialect kernel) image → KeepsShape command → first_false text_asked image command ≡ None →
        RunsAsRenamed image (effect text_asked canonical command image) (renaming_of image command) }
{
    every_image_may_be_renamed();
    law_renamed_images();
    law_variable_commands();
    every_image_has_kernel_chains();
    law_class_commands();
    law_method_images();
}

/// Where no condition of a command that moves no code is false in a valid image behind the kernel, the image is matched by what the
/// command makes of it, up to what the command renames.
pub fn law_matched_commands()
    ensures { (dialect : Dialect) (kernel image : ImageOf Text) (command : CommandOf Text) → IsKernelOf dialect prelude_text kernel →
        IsValid text_words (reading_of dialect kernel) image → MovesNoCode command → first_false text_asked image command ≡ None →
        AreMatched image (effect text_asked canonical command image) (renaming_of image command) }
{
    law_commands();
    law_renamed_temporaries();
    law_changed_parameters();
}

/// So do the commands that keep the shape of code in the image of each file-out that is read behind the kernel.
pub fn law_command_files()
    ensures { (dialect : Dialect) (text : Text) (image : ImageOf Text) (command : CommandOf Text) → IsImageOf dialect prelude_text text image →
        KeepsShape command → first_false text_asked image command ≡ None → RunsAsRenamed image (effect text_asked canonical command image) (renaming_of image command) }
{
    every_image_is_valid();
    law_commands();
}
