// The law of a renamed selector. The function does nothing; its contract is the law, for all images whose names are texts.
ghost use Rattle.std.specs.Prelude.{◌≡◌, true, false};
ghost use Rattle.rb_base.specs.Names.{text_eq};
ghost use Rattle.image_model.specs.Image.{ImageOf};
ghost use Rattle.st_kernel.specs.Selectors.{is_control};
ghost use Rattle.run_model.specs.Values.{Name};
ghost use Rattle.mapped_model.specs.RenamedRuns.{RunsAsRenamed};
ghost use Rattle.rename_model.specs.CommandWords.{text_command_words};
ghost use Rattle.rename_model.specs.Conditions.{is_no_kernel_selector, is_selector_fresh};
ghost use Rattle.rename_model.specs.ClassRenamed.{WritingOf};
ghost use Rattle.rename_model.specs.SelectorRenamed.{selector_renamed};
ghost use Rattle.rename_model.specs.OneRenamed.{one_selector};

use mapped_model::{law_changed_images, law_matched_by_maps, law_matched_images};

/// An image is matched, up to the renaming of one selector, by the image in which the methods of that selector have a new
/// one and each message of it is one of the new one. No method has the new selector before and no code sends it, and
/// neither selector is that of a control send. Nothing else is asked, of the image or of the selectors, nor how sources are
/// written. What the command asks of both selectors says as much.
pub fn law_renamed_selector()
    ensures matched { (writing : WritingOf Name) (i : ImageOf Name) (s t : Name) → is_control s ≡ false → is_control t ≡ false →
        is_selector_fresh text_eq i t ≡ true → RunsAsRenamed i (selector_renamed text_eq writing i s t) (one_selector s t) }
    ensures by_command { (writing : WritingOf Name) (i : ImageOf Name) (old new : Name) →
        is_no_kernel_selector text_eq text_command_words i old ≡ true → is_no_kernel_selector text_eq text_command_words i new ≡ true →
        is_selector_fresh text_eq i new ≡ true → RunsAsRenamed i (selector_renamed text_eq writing i old new) (one_selector old new) }
{
    law_changed_images();
    law_matched_images();
    law_matched_by_maps();
}
