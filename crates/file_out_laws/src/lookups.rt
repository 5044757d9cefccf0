// The laws. Each function does nothing; its contract is the law.
ghost use Rattle.std.specs.Prelude.{◌≡◌, ℕ, List, Bool, None};
ghost use Rattle.token_model.specs.declared.kind.Dialect.{Dialect};
ghost use Rattle.tree_model.specs.Tree.{MethodOf};
ghost use Rattle.st_kernel.specs.KernelText.{prelude_text};
ghost use Rattle.image_model.specs.Image.{ImageOf};
ghost use Rattle.image_model.specs.Words.{text_words};
ghost use Rattle.image_model.specs.Valid.{IsValid};
ghost use Rattle.run_model.specs.Renamings.{no_renaming};
ghost use Rattle.mapped_model.specs.RenamedRuns.{RunsAsRenamed};
ghost use Rattle.file_model.specs.Filing.{Text};
ghost use Rattle.file_model.specs.Fileable.{reading_of};
ghost use Rattle.file_model.specs.Reading.{IsImageOf, IsKernelOf};
ghost use Rattle.rename_model.specs.ClassRenamed.{canonical};
ghost use Rattle.command_model.specs.Asked.{text_asked};
ghost use Rattle.command_model.specs.Commands.{AddClass, RemoveClass, AddMethod, RemoveMethod, PushUpMethod, PushDownMethod};
ghost use Rattle.command_model.specs.Effects.{effect};
ghost use Rattle.command_model.specs.Judged.{first_false};
ghost use Rattle.run_model.specs.Runs.{run};
ghost use Rattle.run_model.specs.Matched.{AreMatched};
ghost use Rattle.agreement_laws.specs.AgreeingImages.{Reached, LookupsAgree};
ghost use Rattle.agreement_laws.specs.KernelChains.{HasKernelChains};

use crate::renamings::every_image_may_be_renamed;
use agreement_laws::law_lookups_agree_on;
use kernel_image::{every_image_is_valid, kernel_has_these_classes};
use lookup_laws::{law_class_commands, law_method_commands};

/// In each valid image behind the kernel, in either dialect, the classes of which the language itself speaks are the kernel's,
/// with all classes above them.
pub fn every_image_has_kernel_chains()
    ensures { (dialect : Dialect) (kernel image : ImageOf Text) → IsKernelOf dialect prelude_text kernel → IsValid text_words (reading_of dialect kernel) image → HasKernelChains image }
{
    kernel_has_these_classes();
    every_image_may_be_renamed();
}

/// Where the conditions of an addition, a removal or a move of a method hold of a valid image behind the kernel, what the
/// command makes of it runs as it does, with nothing renamed.
pub fn law_method_images()
    ensures added { (dialect : Dialect) (kernel image : ImageOf Text) (c : Text) (meta : Bool) (protocol text : List ℕ) (tree : MethodOf Text) → IsKernelOf dialect prelude_text kernel → IsValid text_words (reading_of dialect kernel) image →
        first_false text_asked image (AddMethod c meta protocol text tree) ≡ None → RunsAsRenamed image (effect text_asked canonical (AddMethod c meta protocol text tree) image) no_renaming }
    ensures removed { (dialect : Dialect) (kernel image : ImageOf Text) (c : Text) (meta : Bool) (s : Text) → IsKernelOf dialect prelude_text kernel → IsValid text_words (reading_of dialect kernel) image →
        first_false text_asked image (RemoveMethod c meta s) ≡ None → RunsAsRenamed image (effect text_asked canonical (RemoveMethod c meta s) image) no_renaming }
    ensures pushed_up { (dialect : Dialect) (kernel image : ImageOf Text) (c : Text) (meta : Bool) (s : Text) → IsKernelOf dialect prelude_text kernel → IsValid text_words (reading_of dialect kernel) image →
        first_false text_asked image (PushUpMethod c meta s) ≡ None → RunsAsRenamed image (effect text_asked canonical (PushUpMethod c meta s) image) no_renaming }
    ensures pushed_down { (dialect : Dialect) (kernel image : ImageOf Text) (c : Text) (meta : Bool) (s : Text) → IsKernelOf dialect prelude_text kernel → IsValid text_words (reading_of dialect kernel) image →
        first_false text_asked image (PushDownMethod c meta s) ≡ None → RunsAsRenamed image (effect text_asked canonical (PushDownMethod c meta s) image) no_renaming }
{
    every_image_has_kernel_chains();
    every_image_may_be_renamed();
    law_method_commands();
}

/// So it is of the image of each file-out that is read behind the kernel.
pub fn law_method_files()
    ensures added { (dialect : Dialect) (file : Text) (image : ImageOf Text) (c : Text) (meta : Bool) (protocol text : List ℕ) (tree : MethodOf Text) → IsImageOf dialect prelude_text file image →
        first_false text_asked image (AddMethod c meta protocol text tree) ≡ None → RunsAsRenamed image (effect text_asked canonical (AddMethod c meta protocol text tree) image) no_renaming }
    ensures removed { (dialect : Dialect) (file : Text) (image : ImageOf Text) (c : Text) (meta : Bool) (s : Text) → IsImageOf dialect prelude_text file image →
        first_false text_asked image (RemoveMethod c meta s) ≡ None → RunsAsRenamed image (effect text_asked canonical (RemoveMethod c meta s) image) no_renaming }
    ensures pushed_up { (dialect : Dialect) (file : Text) (image : ImageOf Text) (c : Text) (meta : Bool) (s : Text) → IsImageOf dialect prelude_text file image →
        first_false text_asked image (PushUpMethod c meta s) ≡ None → RunsAsRenamed image (effect text_asked canonical (PushUpMethod c meta s) image) no_renaming }
    ensures pushed_down { (dialect : Dialect) (file : Text) (image : ImageOf Text) (c : Text) (meta : Bool) (s : Text) → IsImageOf dialect prelude_text file image →
        first_false text_asked image (PushDownMethod c meta s) ≡ None → RunsAsRenamed image (effect text_asked canonical (PushDownMethod c meta s) image) no_renaming }
{
    every_image_is_valid();
    law_method_images();
}

/// Where the conditions of an addition or a removal of a class hold of a valid image behind the kernel, what the
/// command makes of it runs as it does, with nothing renamed.
pub fn law_class_images()
    ensures added { (dialect : Dialect) (kernel image : ImageOf Text) (d p : Text) (under : List Text) → IsKernelOf dialect prelude_text kernel → IsValid text_words (reading_of dialect kernel) image →
        first_false text_asked image (AddClass d p under) ≡ None → RunsAsRenamed image (effect text_asked canonical (AddClass d p under) image) no_renaming }
    ensures removed { (dialect : Dialect) (kernel image : ImageOf Text) (c : Text) → IsKernelOf dialect prelude_text kernel → IsValid text_words (reading_of dialect kernel) image →
        first_false text_asked image (RemoveClass c) ≡ None → RunsAsRenamed image (effect text_asked canonical (RemoveClass c) image) no_renaming }
{
    every_image_has_kernel_chains();
    every_image_may_be_renamed();
    law_class_commands();
}

/// So it is of the image of each file-out that is read behind the kernel.
pub fn law_class_files()
    ensures added { (dialect : Dialect) (file : Text) (image : ImageOf Text) (d p : Text) (under : List Text) → IsImageOf dialect prelude_text file image →
        first_false text_asked image (AddClass d p under) ≡ None → RunsAsRenamed image (effect text_asked canonical (AddClass d p under) image) no_renaming }
    ensures removed { (dialect : Dialect) (file : Text) (image : ImageOf Text) (c : Text) → IsImageOf dialect prelude_text file image →
        first_false text_asked image (RemoveClass c) ≡ None → RunsAsRenamed image (effect text_asked canonical (RemoveClass c) image) no_renaming }
{
    every_image_is_valid();
    law_class_images();
}

/// Two valid images behind the kernel with equal do-its, whose look-ups agree on lists of classes, selectors and methods that
/// hold the kernel's classes and what do-its and these methods mean, send and find, have the same runs.
pub fn law_lookups_agree()
    ensures run { (dialect : Dialect) (kernel before after : ImageOf Text) (r : Reached) (n : ℕ) → IsKernelOf dialect prelude_text kernel → IsValid text_words (reading_of dialect kernel) before →
        IsValid text_words (reading_of dialect kernel) after → LookupsAgree r before after → run after n ≡ run before n }
    ensures matched { (dialect : Dialect) (kernel before after : ImageOf Text) (r : Reached) → IsKernelOf dialect prelude_text kernel → IsValid text_words (reading_of dialect kernel) before →
        IsValid text_words (reading_of dialect kernel) after → LookupsAgree r before after → AreMatched before after no_renaming }
{
    kernel_has_these_classes();
    every_image_may_be_renamed();
    law_lookups_agree_on();
}
