// The law of actions over numbers of names. The function does nothing; its contract is the law.
ghost use Rattle.std.specs.Prelude.{◌≡◌, ◌<◌, ℕ, List, length, map, nat_eq, option_map};
ghost use Rattle.std.specs.List.{AllByRecursion};
ghost use Rattle.rb_base.specs.Names.{HasNoTwice, name_at, text_eq};
ghost use Rattle.image_model.specs.Image.{ImageOf, map_image};
ghost use Rattle.image_model.specs.ImageNames.{ImageNames};
ghost use Rattle.rename_model.specs.ClassRenamed.{canonical};
ghost use Rattle.command_model.specs.Asked.{text_asked};
ghost use Rattle.command_model.specs.Numbers.{number_writing};
ghost use Rattle.command_numbers.specs.CommandNames.{CommandNames};
ghost use Rattle.command_numbers.specs.MappedCommands.{map_command, map_condition};
ghost use Rattle.session_model.specs.Actions.{ActionOf};
ghost use Rattle.session_model.specs.OwnConditions.{first_own_false};
ghost use Rattle.session_model.specs.Steps.{steps_of};
ghost use Rattle.commands.specs.Actions.{ActionNames, map_action};
ghost use Rattle.commands.specs.Views.{asked_by};

use command_numbers::commands_by_numbers;
use mentions::{law_complete, law_listed};
use rb_base::NameId;

/// An action has the same steps, and the same one of its own conditions is the first that is false, over the numbers of names
/// in a table and over their texts; and each number in a step is that of a name in the table.
pub fn actions_by_numbers()
    ensures own { (names : List (List ℕ)) (i : ImageOf ℕ) (action : ActionOf ℕ) → HasNoTwice names →
        ImageNames (λ n. n < length names) i → ActionNames (λ n. n < length names) action →
        first_own_false text_asked (map_image (name_at names) i) (map_action (name_at names) action) ≡ option_map (map_condition (name_at names)) (first_own_false (asked_by names) i action) }
    ensures steps { (names : List (List ℕ)) (i : ImageOf ℕ) (action : ActionOf ℕ) → HasNoTwice names →
        ImageNames (λ n. n < length names) i → ActionNames (λ n. n < length names) action →
        steps_of text_eq (map_image (name_at names) i) canonical (map_action (name_at names) action) ≡ map (map_command (name_at names)) (steps_of nat_eq i (number_writing names) action) }
    ensures known { (names : List (List ℕ)) (i : ImageOf ℕ) (action : ActionOf ℕ) →
        ImageNames (λ n. n < length names) i → ActionNames (λ n. n < length names) action →
        AllByRecursion (CommandNames (λ n. n < length names)) (steps_of nat_eq i (number_writing names) action) }
{
    commands_by_numbers();
    law_complete::<NameId>();
    law_listed::<NameId>();
}
