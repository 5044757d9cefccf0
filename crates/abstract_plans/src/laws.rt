// A law of what the command makes of an image. The function does nothing; its contract is the law.
ghost use Rattle.std.specs.Prelude.{◌<◌, length};
ghost use Rattle.class_table.specs.Slots.{Slots};
ghost use Rattle.class_table.specs.Valid.{IsOrderly};
ghost use Rattle.command_numbers.specs.CommandNames.{CommandNames};
ghost use Rattle.image_model.specs.ImageNames.{ImageNames};
ghost use Rattle.remade_plans.specs.Remade.{image_after};
ghost use Rattle.abstracted_code.specs.declared.abstraction.Abstraction.{Abstraction};
ghost use Rattle.abstract_plans.specs.Abstracted.{abstraction_command, remaking_of};

use code_command_numbers::numbers_of_all_commands;

/// Each name in the image whose code is made anew has a text.
pub(crate) fn law_known()
    ensures { (s : Slots) (a : Abstraction) → IsOrderly s → CommandNames (λ n. n < length s.names) (abstraction_command a) → a.self_name < length s.names →
        ImageNames (λ n. n < length s.names) (image_after s (remaking_of s a)) }
{
    numbers_of_all_commands();
}
