// A law of what a command makes of an image. The function does nothing; its contract is the law.
ghost use Rattle.std.specs.Prelude.{◌<◌, length};
ghost use Rattle.class_table.specs.Slots.{Slots};
ghost use Rattle.class_table.specs.Valid.{IsOrderly};
ghost use Rattle.command_numbers.specs.CommandNames.{CommandNames};
ghost use Rattle.image_model.specs.ImageNames.{ImageNames};
ghost use Rattle.parameter_plans.specs.declared.given.ParameterChange.{ParameterChange};
ghost use Rattle.parameter_plans.specs.Given.{parameter_command, remaking_of};
ghost use Rattle.remade_plans.specs.Remade.{image_after};

use command_numbers::numbers_of_commands;

/// Each name in the image after has a text.
pub(crate) fn law_known()
    ensures { (s : Slots) (change : ParameterChange) → IsOrderly s → CommandNames (λ n. n < length s.names) (parameter_command change) →
        ImageNames (λ n. n < length s.names) (image_after s (remaking_of change)) }
{
    numbers_of_commands();
}
