// The laws. Each function does nothing; its contract is the law.
ghost use Rattle.std.specs.Prelude.{◌≡◌, ℕ, true, None};
ghost use Rattle.std.specs.List.{AllByRecursion};
ghost use Rattle.token_model.specs.declared.kind.Dialect.{Dialect};
ghost use Rattle.tree_model.specs.Tree.{LiteralOf};
ghost use Rattle.st_kernel.specs.KernelText.{prelude_text};
ghost use Rattle.image_model.specs.Image.{ImageOf};
ghost use Rattle.image_model.specs.Words.{text_words};
ghost use Rattle.image_model.specs.Valid.{IsValid};
ghost use Rattle.run_model.specs.Matched.{AreMatched};
ghost use Rattle.file_model.specs.Filing.{Text};
ghost use Rattle.file_model.specs.Fileable.{reading_of};
ghost use Rattle.file_model.specs.Reading.{IsImageOf, IsKernelOf};
ghost use Rattle.rename_model.specs.ClassRenamed.{canonical};
ghost use Rattle.command_model.specs.Allowed.{Meets};
ghost use Rattle.command_model.specs.Asked.{text_asked};
ghost use Rattle.command_model.specs.CodeNeeds.{in_no_implementor};
ghost use Rattle.command_model.specs.Commands.{AddParameter, RemoveParameter};
ghost use Rattle.command_model.specs.Conditions.{NoReflection, SelectorFresh, NotKernelSelector, ParameterUnused, PlainArguments, AtomLiteral};
ghost use Rattle.command_model.specs.Effects.{effect};
ghost use Rattle.command_model.specs.Judged.{first_false};
ghost use Rattle.command_model.specs.Renamings.{renaming_of};

use crate::renamings::every_image_may_be_renamed;
use kernel_image::every_image_is_valid;
use parameter_laws::{law_added_parameter, law_removed_parameter};
use reread_law::{spells_the_tree_again, tells_which_trees_have_a_text};

/// Where no condition of the command is false of a valid image behind the kernel, the image that it makes, with what it changes
/// written in canonical text, is matched up to the renaming of the selector: a parameter is removed, or one is added. Some of the
/// conditions suffice. Of both commands they say that the kernel speaks of neither selector, and that no code has or sends the new
/// one; to remove a parameter, also that no code looks at the program itself, that no method reads the parameter and that what
/// messages pass for it is plain; to add one, also that no method of the selector has its name and that the literal is an atom.
pub fn law_changed_parameters()
    ensures removed { (dialect : Dialect) (kernel image : ImageOf Text) (s t : Text) (k : ℕ) → IsKernelOf dialect prelude_text kernel →
        IsValid text_words (reading_of dialect kernel) image → first_false text_asked image (RemoveParameter s k t) ≡ None →
        AreMatched image (effect text_asked canonical (RemoveParameter s k t) image) (renaming_of image (RemoveParameter s k t)) }
    ensures added { (dialect : Dialect) (kernel image : ImageOf Text) (s t x : Text) (l : LiteralOf Text) → IsKernelOf dialect prelude_text kernel →
        IsValid text_words (reading_of dialect kernel) image → first_false text_asked image (AddParameter s t x l) ≡ None →
        AreMatched image (effect text_asked canonical (AddParameter s t x l) image) (renaming_of image (AddParameter s t x l)) }
    ensures removed_where { (dialect : Dialect) (kernel image : ImageOf Text) (s t : Text) (k : ℕ) → IsKernelOf dialect prelude_text kernel →
        IsValid text_words (reading_of dialect kernel) image →
        Meets text_asked image (RemoveParameter s k t) NoReflection → Meets text_asked image (RemoveParameter s k t) (NotKernelSelector s) →
        Meets text_asked image (RemoveParameter s k t) (NotKernelSelector t) → Meets text_asked image (RemoveParameter s k t) (SelectorFresh t) →
        Meets text_asked image (RemoveParameter s k t) (ParameterUnused s k) → Meets text_asked image (RemoveParameter s k t) (PlainArguments s k) →
        AreMatched image (effect text_asked canonical (RemoveParameter s k t) image) (renaming_of image (RemoveParameter s k t)) }
    ensures added_where { (dialect : Dialect) (kernel image : ImageOf Text) (s t x : Text) (l : LiteralOf Text) → IsKernelOf dialect prelude_text kernel →
        IsValid text_words (reading_of dialect kernel) image →
        Meets text_asked image (AddParameter s t x l) (NotKernelSelector s) → Meets text_asked image (AddParameter s t x l) (NotKernelSelector t) →
        Meets text_asked image (AddParameter s t x l) (SelectorFresh t) →
        AllByRecursion (Meets text_asked image (AddParameter s t x l)) (in_no_implementor text_asked image s x) → Meets text_asked image (AddParameter s t x l) AtomLiteral →
        AreMatched image (effect text_asked canonical (AddParameter s t x l) image) (renaming_of image (AddParameter s t x l)) }
{
    law_added_parameter();
    law_removed_parameter();
    every_image_may_be_renamed();
    spells_the_tree_again();
    tells_which_trees_have_a_text();
}

/// So it is of the image of each file-out that is read behind the kernel.
pub fn law_changed_files()
    ensures removed { (dialect : Dialect) (text : Text) (image : ImageOf Text) (s t : Text) (k : ℕ) → IsImageOf dialect prelude_text text image →
        first_false text_asked image (RemoveParameter s k t) ≡ None →
        AreMatched image (effect text_asked canonical (RemoveParameter s k t) image) (renaming_of image (RemoveParameter s k t)) }
    ensures added { (dialect : Dialect) (text : Text) (image : ImageOf Text) (s t x : Text) (l : LiteralOf Text) → IsImageOf dialect prelude_text text image →
        first_false text_asked image (AddParameter s t x l) ≡ None →
        AreMatched image (effect text_asked canonical (AddParameter s t x l) image) (renaming_of image (AddParameter s t x l)) }
    ensures removed_where { (dialect : Dialect) (text : Text) (image : ImageOf Text) (s t : Text) (k : ℕ) → IsImageOf dialect prelude_text text image →
        Meets text_asked image (RemoveParameter s k t) NoReflection → Meets text_asked image (RemoveParameter s k t) (NotKernelSelector s) →
        Meets text_asked image (RemoveParameter s k t) (NotKernelSelector t) → Meets text_asked image (RemoveParameter s k t) (SelectorFresh t) →
        Meets text_asked image (RemoveParameter s k t) (ParameterUnused s k) → Meets text_asked image (RemoveParameter s k t) (PlainArguments s k) →
        AreMatched image (effect text_asked canonical (RemoveParameter s k t) image) (renaming_of image (RemoveParameter s k t)) }
    ensures added_where { (dialect : Dialect) (text : Text) (image : ImageOf Text) (s t x : Text) (l : LiteralOf Text) → IsImageOf dialect prelude_text text image →
        Meets text_asked image (AddParameter s t x l) (NotKernelSelector s) → Meets text_asked image (AddParameter s t x l) (NotKernelSelector t) →
        Meets text_asked image (AddParameter s t x l) (SelectorFresh t) →
        AllByRecursion (Meets text_asked image (AddParameter s t x l)) (in_no_implementor text_asked image s x) → Meets text_asked image (AddParameter s t x l) AtomLiteral →
        AreMatched image (effect text_asked canonical (AddParameter s t x l) image) (renaming_of image (AddParameter s t x l)) }
{
    every_image_is_valid();
    law_changed_parameters();
}
