// The law of witnesses whose names are changed. The function does nothing; its contract is the law.
ghost use Rattle.std.specs.Prelude.{◌≡◌, ◌<◌, ℕ, List, length, map};
ghost use Rattle.rb_base.specs.Names.{HasNoTwice, name_at};
ghost use Rattle.image_model.specs.Image.{ImageOf, map_image};
ghost use Rattle.image_model.specs.ImageNames.{ImageNames};
ghost use Rattle.command_model.specs.Commands.{CommandOf};
ghost use Rattle.command_model.specs.Conditions.{ConditionOf};
ghost use Rattle.command_model.specs.Located.{Locating};
ghost use Rattle.command_model.specs.Asked.{asked_of_texts};
ghost use Rattle.command_model.specs.Numbers.{number_asked};
ghost use Rattle.command_numbers.specs.CommandNames.{CommandNames, ConditionNames};
ghost use Rattle.command_numbers.specs.MappedCommands.{map_command, map_condition};
ghost use Rattle.code_command_numbers.specs.SelfNumber.{IsNumberOfSelf};
ghost use Rattle.refusal_witnesses.specs.Refused.{witnesses};
ghost use Rattle.witness_numbers.specs.MappedWitnesses.{map_witness};

/// Each condition has the same witnesses over the numbers of names in a table and over their texts: if no name has two
/// numbers, `self` has one, and parts of sources are looked up the same.
pub fn witnesses_by_numbers()
    ensures { (names : List (List ℕ)) (self_number : ℕ) (part_of : Locating) (i : ImageOf ℕ) (command : CommandOf ℕ) (condition : ConditionOf ℕ) → HasNoTwice names → IsNumberOfSelf names self_number →
        ImageNames (λ n. n < length names) i → CommandNames (λ n. n < length names) command → ConditionNames (λ n. n < length names) condition →
        witnesses (asked_of_texts part_of) (map_image (name_at names) i) (map_command (name_at names) command) (map_condition (name_at names) condition)
        ≡ map (map_witness (name_at names)) (witnesses (number_asked names self_number part_of) i command condition) }
{}
