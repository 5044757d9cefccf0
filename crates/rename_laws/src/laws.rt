// Laws of renamed images. Each function does nothing; its contract is the law, for all images whose names are texts.
ghost use Rattle.std.specs.Prelude.{◌≡◌, true, [], ◌∷◌};
ghost use Rattle.rb_base.specs.Names.{text_eq};
ghost use Rattle.image_model.specs.Image.{ImageOf};
ghost use Rattle.image_model.specs.Words.{text_words};
ghost use Rattle.run_model.specs.Values.{Name};
ghost use Rattle.run_model.specs.Renamings.{no_renaming};
ghost use Rattle.mapped_model.specs.RenamedRuns.{RunsAsRenamed};
ghost use Rattle.rename_model.specs.CommandWords.{is_good_class_name};
ghost use Rattle.rename_model.specs.Conditions.{is_user_class, is_name_unused};
ghost use Rattle.rename_model.specs.ClassRenamed.{WritingOf, class_renamed};
ghost use Rattle.rename_laws.specs.BehindKernel.{IsBehindKernel};

use mapped_model::law_changed_images;

/// An image is matched, up to the renaming of one class, by the image in which a class of the user is called by a name that
/// a class may be given and that nothing in the image has. However methods and do-its are written, the runs are the same.
pub fn law_renamed_class()
    ensures matched { (writing : WritingOf Name) (i : ImageOf Name) (c d : Name) → IsBehindKernel i →
        is_user_class text_eq i c ≡ true → is_good_class_name d ≡ true → is_name_unused text_eq i d ≡ true →
        RunsAsRenamed i (class_renamed text_words writing i c d) (record no_renaming { classes = (c, d) ∷ [] }) }
{
    law_changed_images();
}
