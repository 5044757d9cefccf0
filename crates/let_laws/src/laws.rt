// Laws of temporaries that are set once. Each function does nothing; its contract is the law, for all images whose names are texts.
ghost use Rattle.std.specs.Prelude.{◌≡◌, ℕ, Bool, false, None, [], map};
ghost use Rattle.std.specs.List.{AllByRecursion};
ghost use Rattle.rb_base.specs.Names.{text_eq};
ghost use Rattle.image_model.specs.Image.{ClassOf, EntryOf, ImageOf};
ghost use Rattle.run_model.specs.Values.{Name};
ghost use Rattle.run_model.specs.Renamings.{no_renaming};
ghost use Rattle.run_model.specs.Matched.{AreMatched};
ghost use Rattle.resolved_model.specs.ResolvedImages.{resolved_image};
ghost use Rattle.reread_law.specs.WholeTrees.{WellFormedMethod};
ghost use Rattle.unfolded_calls.specs.Unfolding.{IsUnfolded};
ghost use Rattle.token_model.specs.declared.kind.Dialect.{Dialect};
ghost use Rattle.st_kernel.specs.KernelText.{prelude_text};
ghost use Rattle.file_model.specs.Fileable.{reading_of};
ghost use Rattle.file_model.specs.Reading.{IsImageOf};
ghost use Rattle.image_model.specs.Words.{text_words};
ghost use Rattle.image_model.specs.Valid.{HasNoRepeat, signature, IsValid};
ghost use Rattle.rename_model.specs.ClassRenamed.{WritingOf, canonical};
ghost use Rattle.command_model.specs.Allowed.{Meets};
ghost use Rattle.command_model.specs.Asked.{text_asked};
ghost use Rattle.command_model.specs.Commands.{ExtractTemp, InlineTemp};
ghost use Rattle.command_model.specs.Conditions.{of_another_variable, AtName, GoodName, PartIs, NoCapture, NoNewControl, NotIn, LetForm, FirstEvaluated};
ghost use Rattle.command_model.specs.Effects.{effect};
ghost use Rattle.command_model.specs.Judged.{first_false};
ghost use Rattle.let_laws.specs.LetOnce.{IsLetOnce};

use kernel_image::every_image_is_valid;
use reread_law::{spells_the_tree_again, tells_which_trees_have_a_text};
use run_model::law_control_sends;
use unfolded_calls::law_unfolded_call;

/// An image and the one in which a temporary of one method is gone, with what it was set to where it was read, match each
/// other. What it was set to is plain, or the next statement reads it before it does anything else but look at what is plain.
pub fn law_let_once()
    ensures unfolds { (i j : ImageOf Name) → AllByRecursion (λ (c : ClassOf Name). text_eq [] c.name ≡ false) i.classes → IsLetOnce i j → IsUnfolded (resolved_image i) (resolved_image j) }
    ensures matched { (i j : ImageOf Name) → AllByRecursion (λ (c : ClassOf Name). text_eq [] c.name ≡ false) i.classes → IsLetOnce i j → AreMatched i j no_renaming × AreMatched j i no_renaming }
{
    law_control_sends();
    law_unfolded_call();
}

/// What `extractTemp` makes of an image and the image before match each other, with nothing renamed. Of the conditions of the
/// command four are enough: the part is an expression that is neither `super` nor a block that is run in place, its statement
/// evaluates nothing but plain expressions before it, and the temporary has a name that variables may be given, which is
/// nowhere in the method.
pub fn law_extracted_temporary()
    ensures unfolds { (writing : WritingOf Name) (i : ImageOf Name) (c : Name) (meta : Bool) (s : Name) (from to : ℕ) (x : Name) → AllByRecursion (λ (c : ClassOf Name). text_eq [] c.name ≡ false) i.classes → HasNoRepeat (map signature i.methods) →
        Meets text_asked i (ExtractTemp c meta s from to x) (PartIs c meta s from to) → Meets text_asked i (ExtractTemp c meta s from to x) (FirstEvaluated c meta s from to) →
        Meets text_asked i (ExtractTemp c meta s from to x) (GoodName x of_another_variable) → Meets text_asked i (ExtractTemp c meta s from to x) (NotIn c meta s x) →
        IsUnfolded (resolved_image (effect text_asked writing (ExtractTemp c meta s from to x) i)) (resolved_image i) }
    ensures matched { (writing : WritingOf Name) (i : ImageOf Name) (c : Name) (meta : Bool) (s : Name) (from to : ℕ) (x : Name) → AllByRecursion (λ (c : ClassOf Name). text_eq [] c.name ≡ false) i.classes → HasNoRepeat (map signature i.methods) →
        Meets text_asked i (ExtractTemp c meta s from to x) (PartIs c meta s from to) → Meets text_asked i (ExtractTemp c meta s from to x) (FirstEvaluated c meta s from to) →
        Meets text_asked i (ExtractTemp c meta s from to x) (GoodName x of_another_variable) → Meets text_asked i (ExtractTemp c meta s from to x) (NotIn c meta s x) →
        AreMatched i (effect text_asked writing (ExtractTemp c meta s from to x) i) no_renaming × AreMatched (effect text_asked writing (ExtractTemp c meta s from to x) i) i no_renaming }
{
    law_control_sends();
    law_unfolded_call();
}

/// So it is of each valid image in which no condition of the command is false, with what changes in canonical text.
pub fn law_extracted_images()
    ensures { (dialect : Dialect) (kernel image : ImageOf Name) (c : Name) (meta : Bool) (s : Name) (from to : ℕ) (x : Name) → IsValid text_words (reading_of dialect kernel) image → first_false text_asked image (ExtractTemp c meta s from to x) ≡ None →
        AreMatched image (effect text_asked canonical (ExtractTemp c meta s from to x) image) no_renaming × AreMatched (effect text_asked canonical (ExtractTemp c meta s from to x) image) image no_renaming }
{
    law_extracted_temporary();
}

/// And so it is of the image of each file-out that is read behind the kernel.
pub fn law_extracted_files()
    ensures { (dialect : Dialect) (text : Name) (image : ImageOf Name) (c : Name) (meta : Bool) (s : Name) (from to : ℕ) (x : Name) → IsImageOf dialect prelude_text text image → first_false text_asked image (ExtractTemp c meta s from to x) ≡ None →
        AreMatched image (effect text_asked canonical (ExtractTemp c meta s from to x) image) no_renaming × AreMatched (effect text_asked canonical (ExtractTemp c meta s from to x) image) image no_renaming }
{
    every_image_is_valid();
    law_extracted_images();
}

/// What `inlineTemp` makes of an image and the image before match each other, with nothing renamed. Of the conditions of the
/// command three are enough: the temporary is set once, to what is plain before any read, or is read once, by the next
/// statement before it does anything else but look at what is plain; what it is set to means the same at each read; and it
/// makes no control send there. Each method of the user is one that a text can spell: there `super` is no value, and no
/// literal is a word by itself.
pub fn law_inlined_temporary()
    ensures unfolds { (writing : WritingOf Name) (i : ImageOf Name) (c : Name) (meta : Bool) (s x : Name) → AllByRecursion (λ (c : ClassOf Name). text_eq [] c.name ≡ false) i.classes → HasNoRepeat (map signature i.methods) →
        AllByRecursion (λ (m : EntryOf Name). m.kernel ≡ false → WellFormedMethod false m.tree) i.methods →
        Meets text_asked i (InlineTemp c meta s x) (LetForm c meta s x) → Meets text_asked i (InlineTemp c meta s x) (NoCapture c meta s (AtName x)) → Meets text_asked i (InlineTemp c meta s x) (NoNewControl c meta s (AtName x)) →
        IsUnfolded (resolved_image i) (resolved_image (effect text_asked writing (InlineTemp c meta s x) i)) }
    ensures matched { (writing : WritingOf Name) (i : ImageOf Name) (c : Name) (meta : Bool) (s x : Name) → AllByRecursion (λ (c : ClassOf Name). text_eq [] c.name ≡ false) i.classes → HasNoRepeat (map signature i.methods) →
        AllByRecursion (λ (m : EntryOf Name). m.kernel ≡ false → WellFormedMethod false m.tree) i.methods →
        Meets text_asked i (InlineTemp c meta s x) (LetForm c meta s x) → Meets text_asked i (InlineTemp c meta s x) (NoCapture c meta s (AtName x)) → Meets text_asked i (InlineTemp c meta s x) (NoNewControl c meta s (AtName x)) →
        AreMatched i (effect text_asked writing (InlineTemp c meta s x) i) no_renaming × AreMatched (effect text_asked writing (InlineTemp c meta s x) i) i no_renaming }
{
    law_control_sends();
    law_unfolded_call();
}

/// So it is of each valid image in which no condition of the command is false, with what changes in canonical text.
pub fn law_inlined_temporary_images()
    ensures { (dialect : Dialect) (kernel image : ImageOf Name) (c : Name) (meta : Bool) (s x : Name) → IsValid text_words (reading_of dialect kernel) image → first_false text_asked image (InlineTemp c meta s x) ≡ None →
        AreMatched image (effect text_asked canonical (InlineTemp c meta s x) image) no_renaming × AreMatched (effect text_asked canonical (InlineTemp c meta s x) image) image no_renaming }
{
    law_inlined_temporary();
    spells_the_tree_again();
    tells_which_trees_have_a_text();
}

/// And so it is of the image of each file-out that is read behind the kernel.
pub fn law_inlined_temporary_files()
    ensures { (dialect : Dialect) (text : Name) (image : ImageOf Name) (c : Name) (meta : Bool) (s x : Name) → IsImageOf dialect prelude_text text image → first_false text_asked image (InlineTemp c meta s x) ≡ None →
        AreMatched image (effect text_asked canonical (InlineTemp c meta s x) image) no_renaming × AreMatched (effect text_asked canonical (InlineTemp c meta s x) image) image no_renaming }
{
    every_image_is_valid();
    law_inlined_temporary_images();
}
