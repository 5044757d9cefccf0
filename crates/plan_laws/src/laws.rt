// The law of the changes of a renaming. The function does nothing; its contract is the law.
ghost use Rattle.std.specs.Prelude.{◌≡◌, ℕ, List};
ghost use Rattle.std.specs.List.{AllByRecursion};
ghost use Rattle.class_table.specs.declared.record.Place.{Place};
ghost use Rattle.class_table.specs.Slots.{Slots};
ghost use Rattle.class_table.specs.Valid.{IsOrderly};
ghost use Rattle.class_table.specs.View.{number_image};
ghost use Rattle.change_set.specs.Changes.{all_applied, CanApplyAll};
ghost use Rattle.wider_slots.specs.Closed.{FitsIn};
ghost use Rattle.command_model.specs.Effects.{effect};
ghost use Rattle.command_model.specs.Numbers.{number_writing};
ghost use Rattle.commands.specs.Views.{asked_by};
ghost use Rattle.reference_index.specs.Mentioned.{DiffersAtMost};
ghost use Rattle.renamed_code.specs.Anew.{RenamedOf};
ghost use Rattle.plan_laws.specs.Planned.{renaming, planned, touched, MayBePlanned};

use command_numbers::numbers_of_commands;

/// The changes of a renaming that may be done can be applied, each at its turn, and hold only what is there. They make of the
/// image what the renaming makes of it, over the same names, in slots that are orderly again; and code that mentions other
/// names then stands only where a change is given.
pub fn law_planned()
    ensures can { (s : Slots) (what : RenamedOf ℕ) (to : ℕ) (places : List Place) → MayBePlanned s what to places → CanApplyAll s (planned s what to places) }
    ensures fit { (s : Slots) (what : RenamedOf ℕ) (to : ℕ) (places : List Place) → MayBePlanned s what to places → AllByRecursion (FitsIn s) (planned s what to places) }
    ensures effect { (s : Slots) (what : RenamedOf ℕ) (to : ℕ) (places : List Place) → MayBePlanned s what to places →
        number_image (all_applied s (planned s what to places)) ≡ effect (asked_by s.names) (number_writing s.names) (renaming what to) (number_image s) }
    ensures names { (s : Slots) (what : RenamedOf ℕ) (to : ℕ) (places : List Place) → MayBePlanned s what to places → (all_applied s (planned s what to places)).names ≡ s.names }
    ensures orderly { (s : Slots) (what : RenamedOf ℕ) (to : ℕ) (places : List Place) → MayBePlanned s what to places → IsOrderly (all_applied s (planned s what to places)) }
    ensures touched { (s : Slots) (what : RenamedOf ℕ) (to : ℕ) (places : List Place) → MayBePlanned s what to places →
        DiffersAtMost s (all_applied s (planned s what to places)) (touched s what to places) }
{
    numbers_of_commands();
}
