// Which conditions on parameters, on the names in a method and on heights hold.
ghost use Rattle.std.specs.Prelude.{◌≡◌, ◌<◌, ℕ, length, IfOk};
ghost use Rattle.std.specs.Option.{ForSome};
ghost use Rattle.image_model.specs.Image.{ImageOf};
ghost use Rattle.class_table.specs.Valid.{IsOrderly};
ghost use Rattle.class_table.specs.View.{number_image};
ghost use Rattle.command_model.specs.CodeHolds.{code_holds};
ghost use Rattle.command_model.specs.Conditions as asked;
ghost use Rattle.command_numbers.specs.CommandNames.{ConditionNames};
ghost use Rattle.commands.specs.Views.{asked_by, command_of, condition_of};
ghost use Rattle.commands.specs.declared.command.MethodName.{MethodName};
ghost use Rattle.commands.specs.declared.condition.Condition.TheVariants as kinds;
ghost use Rattle.part_lookup.specs.Kept.{IsKept};
ghost use Rattle.reference_index.specs.Mentioned.{IsIndexOf};
ghost use Rattle.conditions.specs.Concerns.{Concerns};
ghost use Rattle.conditions.specs.Spots.{spot_passes};

use class_table::Image;
use code_conditions::{
    is_one_target, is_self_send, is_shallow_after, let_holds, part_holds, target_holds,
};
use commands::{CodeMove, Command, Condition, MethodName, MethodPart, Spot};
use parameter_questions::{
    are_arguments_plain, is_declared_once, is_not_in, is_parameter_unused, is_passed_atom,
    is_shallow_speaking,
};
use part_lookup::KeptPart;
use rb_base::{Memory, Names, Steps};
use reference_index::Index;
use std::alloc::Global;
use std::sync::ledger::Ledger;

/// Whether the literal that the command passes is an atom.
fn passes_atom(names: &Names, command: &Command) -> bool
    ensures { (i : ImageOf ℕ) → result ≡ code_holds (asked_by names.now) i (command_of command.now) asked.AtomLiteral }
{
    match command {
        Command::AddParameter(new) => is_passed_atom(names, &new.passed),
        _ => false,
    }
}

/// Whether the code that the command changes is at most 200 nodes high afterwards.
fn is_shallow<L: Ledger>(
    alloc: Global,
    image: &Image,
    index: &Index,
    command: &Command,
    kept: &Option<KeptPart>,
    steps: &mut Steps<L>,
) -> Result<bool, Memory>
    requires orderly { IsOrderly image.now }
    requires index { IsIndexOf image.now index.now }
    requires kept { ForSome kept.now (IsKept image.now) }
    requires concerns { Concerns (number_image image.now) (command_of command.now) asked.Shallow }
    ensures { IfOk result (λ is. is ≡ code_holds (asked_by image.now.names) (number_image image.now) (command_of command.now) asked.Shallow) }
{
    match command {
        Command::AddParameter(new) => {
            is_shallow_speaking(alloc, image, index, new.selector, steps)
        }
        Command::MoveCode(change) => is_shallow_after(alloc, image, index, change, kept, steps),
        _ => Ok(false),
    }
}

/// Whether the message that the command replaces finds a method whose body may stand in its place, which the condition asks.
fn is_target_inlinable<L: Ledger>(
    alloc: Global,
    image: &Image,
    command: &Command,
    condition: &Condition,
    kept: &Option<KeptPart>,
    steps: &mut Steps<L>,
) -> Result<bool, Memory>
    requires orderly { IsOrderly image.now }
    requires kept { ForSome kept.now (IsKept image.now) }
    ensures { (m : MethodName) → condition.now ≡ kinds.Inlinable m → IfOk result (λ is. is ≡ code_holds (asked_by image.now.names) (number_image image.now) (command_of command.now) (asked.Inlinable m.class m.meta m.selector)) }
{
    match command {
        Command::MoveCode(CodeMove::InlineMethod(part)) => {
            target_holds(alloc, image, part, condition, kept, steps)
        }
        _ => Ok(false),
    }
}

/// Whether such a condition holds where the method has a part at the spot, or assigns a temporary of that name.
fn spot_holds<L: Ledger>(
    alloc: Global,
    image: &Image,
    method: &MethodName,
    spot: &Spot,
    condition: &Condition,
    kept: &Option<KeptPart>,
    steps: &mut Steps<L>,
) -> Result<bool, Memory>
    requires orderly { IsOrderly image.now }
    requires kept { ForSome kept.now (IsKept image.now) }
    ensures { IfOk result (λ is. is ≡ spot_passes image.now method.now spot.now condition.now) }
{
    match spot {
        Spot::Part { from, to } => {
            let part = MethodPart {
                method: *method,
                from: *from,
                to: *to,
            };
            target_holds(alloc, image, &part, condition, kept, steps)
        }
        Spot::Name(variable) => let_holds(alloc, image, method, *variable, condition, steps),
    }
}

/// Whether such a condition of the command holds; any other one does not.
pub(crate) fn code_holds<L: Ledger>(
    alloc: Global,
    image: &Image,
    index: &Index,
    command: &Command,
    condition: &Condition,
    kept: &Option<KeptPart>,
    steps: &mut Steps<L>,
) -> Result<bool, Memory>
    requires orderly { IsOrderly image.now }
    requires index { IsIndexOf image.now index.now }
    requires kept { ForSome kept.now (IsKept image.now) }
    requires condition { ConditionNames (λ n. n < length image.now.names) (condition_of condition.now) }
    requires concerns { Concerns (number_image image.now) (command_of command.now) (condition_of condition.now) }
    ensures { IfOk result (λ is. is ≡ code_holds (asked_by image.now.names) (number_image image.now) (command_of command.now) (condition_of condition.now)) }
{
    match condition {
        Condition::ParameterUnused { selector, argument } => {
            is_parameter_unused(alloc, image, index, *selector, *argument, steps)
        }
        Condition::PlainArguments { selector, argument } => {
            are_arguments_plain(alloc, image, index, *selector, *argument, steps)
        }
        Condition::AtomLiteral => Ok(passes_atom(image.names(), command)),
        Condition::Declared { method, variable } => {
            is_declared_once(alloc, image, *method, *variable, steps)
        }
        Condition::NotIn { method, variable } => is_not_in(alloc, image, *method, *variable, steps),
        Condition::Shallow => is_shallow(alloc, image, index, command, kept, steps),
        Condition::PartIs(part) => part_holds(alloc, image, part, condition, kept, steps),
        Condition::NoReturn(part) => part_holds(alloc, image, part, condition, kept, steps),
        Condition::AssignsNoOuter(part) => part_holds(alloc, image, part, condition, kept, steps),
        Condition::TempsSteady(part) => part_holds(alloc, image, part, condition, kept, steps),
        Condition::ValueUnused(part) => part_holds(alloc, image, part, condition, kept, steps),
        Condition::FirstEvaluated(part) => part_holds(alloc, image, part, condition, kept, steps),
        Condition::SelfSend(part) => is_self_send(alloc, image, part, kept, steps),
        Condition::OneTarget(method) => Ok(is_one_target(image, method)),
        Condition::Inlinable(_) => is_target_inlinable(
            alloc, image, command, condition, kept, steps,
        ),
        Condition::PlainActuals(part) => target_holds(alloc, image, part, condition, kept, steps),
        Condition::NoCapture { method, spot } => {
            spot_holds(alloc, image, method, spot, condition, kept, steps)
        }
        Condition::NoNewControl { method, spot } => {
            spot_holds(alloc, image, method, spot, condition, kept, steps)
        }
        Condition::LetForm { method, variable } => {
            let_holds(alloc, image, method, *variable, condition, steps)
        }
        _ => Ok(false),
    }
}
