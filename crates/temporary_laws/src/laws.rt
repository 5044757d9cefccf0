// The law of a renamed temporary. The function does nothing; its contract is the law, for all images whose names are texts.
ghost use Rattle.std.specs.Prelude.{Bool, map};
ghost use Rattle.image_model.specs.Image.{ImageOf};
ghost use Rattle.image_model.specs.Valid.{HasNoRepeat, signature};
ghost use Rattle.run_model.specs.Values.{Name};
ghost use Rattle.mapped_model.specs.RenamedRuns.{RunsAsRenamed};
ghost use Rattle.rename_model.specs.ClassRenamed.{WritingOf};
ghost use Rattle.rename_laws.specs.BehindKernel.{IsBehindKernel};
ghost use Rattle.command_model.specs.Allowed.{Meets};
ghost use Rattle.command_model.specs.Asked.{text_asked};
ghost use Rattle.command_model.specs.Commands.{RenameTemp};
ghost use Rattle.command_model.specs.Conditions.{of_another_variable, GoodName, NotIn};
ghost use Rattle.command_model.specs.Effects.{effect};
ghost use Rattle.command_model.specs.Renamings.{renaming_of};

use resolved_model::law_same_resolved;

/// An image in which an argument, a parameter or a temporary of a method of the user has another name runs as the one before, with
/// all that is seen called as before. The method is there, and the new name is one that variables may be given, which the
/// method neither declares nor reads nor assigns. However methods are written, the runs are the same.
pub fn law_renamed_temporary()
    ensures matched { (writing : WritingOf Name) (i : ImageOf Name) (c : Name) (meta : Bool) (s x y : Name) → IsBehindKernel i → HasNoRepeat (map signature i.methods) →
        Meets text_asked i (RenameTemp c meta s x y) (GoodName y of_another_variable) → Meets text_asked i (RenameTemp c meta s x y) (NotIn c meta s y) →
        RunsAsRenamed i (effect text_asked writing (RenameTemp c meta s x y) i) (renaming_of i (RenameTemp c meta s x y)) }
{
    law_same_resolved();
}
