// The laws. Each function does nothing; its contract is the law.
ghost use Rattle.std.specs.Prelude.{◌≡◌, ℕ, Bool, false, None, []};
ghost use Rattle.std.specs.List.{AllByRecursion};
ghost use Rattle.rb_base.specs.Names.{text_eq};
ghost use Rattle.token_model.specs.declared.kind.Dialect.{Dialect};
ghost use Rattle.st_kernel.specs.KernelText.{prelude_text};
ghost use Rattle.image_model.specs.Image.{ClassOf, ImageOf};
ghost use Rattle.image_model.specs.Words.{text_words};
ghost use Rattle.image_model.specs.Valid.{IsValid};
ghost use Rattle.run_model.specs.Values.{Name};
ghost use Rattle.run_model.specs.Renamings.{no_renaming};
ghost use Rattle.run_model.specs.Matched.{AreMatched};
ghost use Rattle.file_model.specs.Filing.{Text};
ghost use Rattle.file_model.specs.Fileable.{reading_of};
ghost use Rattle.file_model.specs.Reading.{IsImageOf, IsKernelOf};
ghost use Rattle.rename_model.specs.ClassRenamed.{WritingOf, canonical};
ghost use Rattle.command_model.specs.Accessors.{setter_argument, setter_selector};
ghost use Rattle.command_model.specs.Asked.{text_asked};
ghost use Rattle.command_model.specs.Commands.{AbstractInstVar, ExtractMethod, InlineMethod};
ghost use Rattle.command_model.specs.Effects.{effect};
ghost use Rattle.command_model.specs.Judged.{first_false};
ghost use Rattle.moved_code_laws.specs.WellWritten.{IsWellWritten};
ghost use Rattle.moved_code_laws.specs.AccessorNames.{AreAccessorNames};
ghost use Rattle.moved_code_laws.specs.VariableAbstracted.{IsVariableAbstracted};

use file_out_laws::{every_image_has_kernel_chains, every_image_may_be_renamed};
use kernel_image::every_image_is_valid;
use reread_law::{spells_the_tree_again, tells_which_trees_have_a_text};
use run_model::law_control_sends;
use unfolded_calls::law_unfolded_call;
use unfolded_places::law_inlined_values;

/// Each valid image behind the kernel, in either dialect, has what the laws on moved code ask of an image.
pub fn every_image_is_well_written()
    ensures { (dialect : Dialect) (kernel image : ImageOf Text) → IsKernelOf dialect prelude_text kernel → IsValid text_words (reading_of dialect kernel) image → IsWellWritten image }
{
    every_image_may_be_renamed();
    every_image_has_kernel_chains();
    spells_the_tree_again();
    tells_which_trees_have_a_text();
}

/// Where no condition of `inlineMethod` is false, the image after and the one before match each other, with nothing renamed, however
/// methods are written.
pub fn law_message_inlined()
    ensures { (writing : WritingOf Name) (i : ImageOf Name) (c : Name) (meta : Bool) (s : Name) (from to : ℕ) → IsWellWritten i → first_false text_asked i (InlineMethod c meta s from to) ≡ None →
        AreMatched i (effect text_asked writing (InlineMethod c meta s from to) i) no_renaming × AreMatched (effect text_asked writing (InlineMethod c meta s from to) i) i no_renaming }
{
    law_control_sends();
    law_unfolded_call();
}

/// So it is of each valid image behind the kernel, in either dialect, and of the image of each file-out.
pub fn law_inlined_images()
    ensures image { (dialect : Dialect) (kernel image : ImageOf Text) (c : Text) (meta : Bool) (s : Text) (from to : ℕ) → IsKernelOf dialect prelude_text kernel →
        IsValid text_words (reading_of dialect kernel) image → first_false text_asked image (InlineMethod c meta s from to) ≡ None →
        AreMatched image (effect text_asked canonical (InlineMethod c meta s from to) image) no_renaming × AreMatched (effect text_asked canonical (InlineMethod c meta s from to) image) image no_renaming }
    ensures file { (dialect : Dialect) (text : Text) (image : ImageOf Text) (c : Text) (meta : Bool) (s : Text) (from to : ℕ) → IsImageOf dialect prelude_text text image →
        first_false text_asked image (InlineMethod c meta s from to) ≡ None →
        AreMatched image (effect text_asked canonical (InlineMethod c meta s from to) image) no_renaming × AreMatched (effect text_asked canonical (InlineMethod c meta s from to) image) image no_renaming }
{
    every_image_is_valid();
    every_image_is_well_written();
    law_message_inlined();
}

/// Where no condition of `extractMethod` is false, the image after and the one before match each other, with nothing renamed, however
/// methods are written.
pub fn law_part_extracted()
    ensures { (writing : WritingOf Name) (i : ImageOf Name) (c : Name) (meta : Bool) (s : Name) (from to : ℕ) (t : Name) → IsWellWritten i → first_false text_asked i (ExtractMethod c meta s from to t) ≡ None →
        AreMatched i (effect text_asked writing (ExtractMethod c meta s from to t) i) no_renaming × AreMatched (effect text_asked writing (ExtractMethod c meta s from to t) i) i no_renaming }
{
    law_control_sends();
    law_unfolded_call();
}

/// So it is of each valid image behind the kernel, in either dialect, and of the image of each file-out.
pub fn law_extracted_images()
    ensures image { (dialect : Dialect) (kernel image : ImageOf Text) (c : Text) (meta : Bool) (s : Text) (from to : ℕ) (t : Text) → IsKernelOf dialect prelude_text kernel →
        IsValid text_words (reading_of dialect kernel) image → first_false text_asked image (ExtractMethod c meta s from to t) ≡ None →
        AreMatched image (effect text_asked canonical (ExtractMethod c meta s from to t) image) no_renaming × AreMatched (effect text_asked canonical (ExtractMethod c meta s from to t) image) image no_renaming }
    ensures file { (dialect : Dialect) (text : Text) (image : ImageOf Text) (c : Text) (meta : Bool) (s : Text) (from to : ℕ) (t : Text) → IsImageOf dialect prelude_text text image →
        first_false text_asked image (ExtractMethod c meta s from to t) ≡ None →
        AreMatched image (effect text_asked canonical (ExtractMethod c meta s from to t) image) no_renaming × AreMatched (effect text_asked canonical (ExtractMethod c meta s from to t) image) image no_renaming }
{
    every_image_is_valid();
    every_image_is_well_written();
    law_part_extracted();
}

/// An image, and the one in which an instance variable is read and assigned by messages to self alone, with the getter and the
/// setter at its end, match each other, with nothing renamed.
pub fn law_variable_abstracted()
    ensures { (i j : ImageOf Name) → AllByRecursion (λ (c : ClassOf Name). text_eq [] c.name ≡ false) i.classes → IsVariableAbstracted i j → AreMatched i j no_renaming × AreMatched j i no_renaming }
{
    law_inlined_values();
}

/// The getter of a variable and the setter with a colon behind its name, with the argument that it has for that variable, are called
/// as they must be.
pub fn law_accessor_names()
    ensures { (x : Name) → AreAccessorNames x (setter_selector x) (setter_argument x) }
{}

/// Where no condition of `abstractInstVar` is false, and the getter and the setter are called as they must be, the image after and
/// the one before match each other, with nothing renamed, however methods are written.
pub fn law_abstracted_variable()
    ensures { (writing : WritingOf Name) (i : ImageOf Name) (c x setter given : Name) → IsWellWritten i → first_false text_asked i (AbstractInstVar c x setter given) ≡ None → AreAccessorNames x setter given →
        AreMatched i (effect text_asked writing (AbstractInstVar c x setter given) i) no_renaming × AreMatched (effect text_asked writing (AbstractInstVar c x setter given) i) i no_renaming }
{
    law_variable_abstracted();
}

/// So it is of each valid image behind the kernel, in either dialect, and of the image of each file-out.
pub fn law_abstracted_images()
    ensures image { (dialect : Dialect) (kernel image : ImageOf Text) (c x setter given : Text) → IsKernelOf dialect prelude_text kernel → IsValid text_words (reading_of dialect kernel) image →
        first_false text_asked image (AbstractInstVar c x setter given) ≡ None → AreAccessorNames x setter given →
        AreMatched image (effect text_asked canonical (AbstractInstVar c x setter given) image) no_renaming × AreMatched (effect text_asked canonical (AbstractInstVar c x setter given) image) image no_renaming }
    ensures file { (dialect : Dialect) (text : Text) (image : ImageOf Text) (c x setter given : Text) → IsImageOf dialect prelude_text text image →
        first_false text_asked image (AbstractInstVar c x setter given) ≡ None → AreAccessorNames x setter given →
        AreMatched image (effect text_asked canonical (AbstractInstVar c x setter given) image) no_renaming × AreMatched (effect text_asked canonical (AbstractInstVar c x setter given) image) image no_renaming }
{
    every_image_is_valid();
    every_image_is_well_written();
    law_abstracted_variable();
}
