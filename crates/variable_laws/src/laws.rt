// Laws of commands on variables. Each function does nothing; its contract is the law, for all images whose names are texts.
ghost use Rattle.std.specs.Prelude.{◌≡◌, None, if◌then◌else◌};
ghost use Rattle.image_model.specs.Image.{ImageOf};
ghost use Rattle.image_model.specs.Means.{of_instance, of_class_side};
ghost use Rattle.run_model.specs.Values.{Name};
ghost use Rattle.run_model.specs.Store.{same_pair};
ghost use Rattle.run_model.specs.Renamings.{OfClass, no_renaming, shared_image};
ghost use Rattle.mapped_model.specs.RenamedRuns.{RunsAsRenamed};
ghost use Rattle.rename_model.specs.ClassRenamed.{WritingOf};
ghost use Rattle.rename_laws.specs.VariablesOnce.{HasVariablesOnce};
ghost use Rattle.command_model.specs.Asked.{text_asked};
ghost use Rattle.command_model.specs.Commands.{CommandOf, AddInstVar, RemoveInstVar, PushUpInstVar, PushDownInstVar, AddClassVar, RemoveClassVar, PushUpClassVar, PushDownClassVar, AddClassSideVar, RemoveClassSideVar};
ghost use Rattle.command_model.specs.Effects.{effect};
ghost use Rattle.command_model.specs.Judged.{first_false};
ghost use Rattle.command_model.specs.Renamings.{one_moved, renaming_of};
ghost use Rattle.variable_laws.specs.KernelDoIts.{HasKernelDoIts};
ghost use Rattle.variable_laws.specs.OfVariables.{IsOfVariables};

use mapped_model::{law_changed_images, law_matched_by_maps, law_matched_images};
use rename_laws::law_renamed_variable_of;

/// Where no condition of a command is false that adds or removes an instance variable or a class-instance variable, or moves
/// an instance variable up or down, the image after runs as the one before, with nothing renamed.
pub fn law_own_variables()
    ensures added { (writing : WritingOf Name) (i : ImageOf Name) (c x : Name) → HasKernelDoIts i → first_false text_asked i (AddInstVar c x) ≡ None →
        RunsAsRenamed i (effect text_asked writing (AddInstVar c x) i) no_renaming }
    ensures removed { (writing : WritingOf Name) (i : ImageOf Name) (c x : Name) → HasKernelDoIts i → first_false text_asked i (RemoveInstVar c x) ≡ None →
        RunsAsRenamed i (effect text_asked writing (RemoveInstVar c x) i) no_renaming }
    ensures pushed_up { (writing : WritingOf Name) (i : ImageOf Name) (c x : Name) → HasKernelDoIts i → first_false text_asked i (PushUpInstVar c x) ≡ None →
        RunsAsRenamed i (effect text_asked writing (PushUpInstVar c x) i) no_renaming }
    ensures pushed_down { (writing : WritingOf Name) (i : ImageOf Name) (c x : Name) → HasKernelDoIts i → first_false text_asked i (PushDownInstVar c x) ≡ None →
        RunsAsRenamed i (effect text_asked writing (PushDownInstVar c x) i) no_renaming }
    ensures class_side_added { (writing : WritingOf Name) (i : ImageOf Name) (c x : Name) → HasKernelDoIts i → first_false text_asked i (AddClassSideVar c x) ≡ None →
        RunsAsRenamed i (effect text_asked writing (AddClassSideVar c x) i) no_renaming }
    ensures class_side_removed { (writing : WritingOf Name) (i : ImageOf Name) (c x : Name) → HasKernelDoIts i → first_false text_asked i (RemoveClassSideVar c x) ≡ None →
        RunsAsRenamed i (effect text_asked writing (RemoveClassSideVar c x) i) no_renaming }
{
    law_changed_images();
    law_matched_images();
    law_matched_by_maps();
}

/// Where no condition of a command is false that adds or removes a class variable, or moves one up or down, the image after
/// runs as the one before; one that is moved is renamed to its new class, and nothing else is.
pub fn law_class_variables()
    ensures added { (writing : WritingOf Name) (i : ImageOf Name) (c x : Name) → HasKernelDoIts i → first_false text_asked i (AddClassVar c x) ≡ None →
        RunsAsRenamed i (effect text_asked writing (AddClassVar c x) i) no_renaming }
    ensures removed { (writing : WritingOf Name) (i : ImageOf Name) (c x : Name) → HasKernelDoIts i → first_false text_asked i (RemoveClassVar c x) ≡ None →
        RunsAsRenamed i (effect text_asked writing (RemoveClassVar c x) i) no_renaming }
    ensures pushed_up { (writing : WritingOf Name) (i : ImageOf Name) (c x : Name) → HasKernelDoIts i → first_false text_asked i (PushUpClassVar c x) ≡ None →
        RunsAsRenamed i (effect text_asked writing (PushUpClassVar c x) i) (renaming_of i (PushUpClassVar c x)) }
    ensures pushed_down { (writing : WritingOf Name) (i : ImageOf Name) (c x d : Name) → HasKernelDoIts i → first_false text_asked i (PushDownClassVar c x d) ≡ None →
        RunsAsRenamed i (effect text_asked writing (PushDownClassVar c x d) i) (renaming_of i (PushDownClassVar c x d)) }
    ensures moved_names { (c d x : Name) (k : OfClass) → shared_image (one_moved c x d) k ≡ (if same_pair k (c, x) then (d, x) else k) }
{
    law_changed_images();
    law_matched_images();
    law_matched_by_maps();
}

/// So it is of each command on variables, the renamings among them: where none of its conditions is false, the image after runs
/// as the one before, up to what the command renames.
pub fn law_variable_commands()
    ensures { (writing : WritingOf Name) (i : ImageOf Name) (command : CommandOf Name) → HasVariablesOnce of_instance i → HasVariablesOnce of_class_side i →
        IsOfVariables command → first_false text_asked i command ≡ None → RunsAsRenamed i (effect text_asked writing command i) (renaming_of i command) }
{
    law_own_variables();
    law_class_variables();
    law_renamed_variable_of();
}
