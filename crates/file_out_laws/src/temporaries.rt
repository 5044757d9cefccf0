// The laws. Each function does nothing; its contract is the law.
ghost use Rattle.std.specs.Prelude.{◌≡◌, Bool, None};
ghost use Rattle.token_model.specs.declared.kind.Dialect.{Dialect};
ghost use Rattle.st_kernel.specs.KernelText.{prelude_text};
ghost use Rattle.image_model.specs.Image.{ImageOf};
ghost use Rattle.image_model.specs.Words.{text_words};
ghost use Rattle.image_model.specs.Valid.{IsValid};
ghost use Rattle.mapped_model.specs.RenamedRuns.{RunsAsRenamed};
ghost use Rattle.file_model.specs.Filing.{Text};
ghost use Rattle.file_model.specs.Fileable.{reading_of};
ghost use Rattle.file_model.specs.Reading.{IsImageOf, IsKernelOf};
ghost use Rattle.rename_model.specs.ClassRenamed.{canonical};
ghost use Rattle.command_model.specs.Allowed.{Meets};
ghost use Rattle.command_model.specs.Asked.{text_asked};
ghost use Rattle.command_model.specs.Commands.{RenameTemp};
ghost use Rattle.command_model.specs.Conditions.{of_another_variable, GoodName, NotIn};
ghost use Rattle.command_model.specs.Effects.{effect};
ghost use Rattle.command_model.specs.Judged.{first_false};
ghost use Rattle.command_model.specs.Renamings.{renaming_of};

use crate::renamings::every_image_may_be_renamed;
use kernel_image::every_image_is_valid;
use temporary_laws::law_renamed_temporary;

/// Where no condition of the renaming of an argument, a parameter or a temporary is false of a valid image behind the kernel, or of
/// that of a file-out, the image after runs as the one before, up to what the command renames. Two of the conditions suffice: the
/// new name is one that variables may be given, and the method neither declares nor uses it.
pub fn law_renamed_temporaries()
    ensures image { (dialect : Dialect) (kernel image : ImageOf Text) (c : Text) (meta : Bool) (s x y : Text) → IsKernelOf dialect prelude_text kernel →
        IsValid text_words (reading_of dialect kernel) image → first_false text_asked image (RenameTemp c meta s x y) ≡ None →
        RunsAsRenamed image (effect text_asked canonical (RenameTemp c meta s x y) image) (renaming_of image (RenameTemp c meta s x y)) }
    ensures file { (dialect : Dialect) (text : Text) (image : ImageOf Text) (c : Text) (meta : Bool) (s x y : Text) → IsImageOf dialect prelude_text text image →
        first_false text_asked image (RenameTemp c meta s x y) ≡ None →
        RunsAsRenamed image (effect text_asked canonical (RenameTemp c meta s x y) image) (renaming_of image (RenameTemp c meta s x y)) }
    ensures image_where { (dialect : Dialect) (kernel image : ImageOf Text) (c : Text) (meta : Bool) (s x y : Text) → IsKernelOf dialect prelude_text kernel →
        IsValid text_words (reading_of dialect kernel) image →
        Meets text_asked image (RenameTemp c meta s x y) (GoodName y of_another_variable) → Meets text_asked image (RenameTemp c meta s x y) (NotIn c meta s y) →
        RunsAsRenamed image (effect text_asked canonical (RenameTemp c meta s x y) image) (renaming_of image (RenameTemp c meta s x y)) }
    ensures file_where { (dialect : Dialect) (text : Text) (image : ImageOf Text) (c : Text) (meta : Bool) (s x y : Text) → IsImageOf dialect prelude_text text image →
        Meets text_asked image (RenameTemp c meta s x y) (GoodName y of_another_variable) → Meets text_asked image (RenameTemp c meta s x y) (NotIn c meta s y) →
        RunsAsRenamed image (effect text_asked canonical (RenameTemp c meta s x y) image) (renaming_of image (RenameTemp c meta s x y)) }
{
    every_image_is_valid();
    every_image_may_be_renamed();
    law_renamed_temporary();
}
