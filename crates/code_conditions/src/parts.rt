// Which conditions of a part hold that is taken out of a method.
ghost use Rattle.std.specs.Prelude.{◌≡◌, false, IfOk};
ghost use Rattle.std.specs.Option.{option_map_or, ForSome};
ghost use Rattle.class_table.specs.Valid.{IsLive, IsOrderly};
ghost use Rattle.class_table.specs.View.{number_image};
ghost use Rattle.command_model.specs.CodeEffects.{part_at};
ghost use Rattle.commands.specs.Views.{asked_by};
ghost use Rattle.part_lookup.specs.Kept.{IsKept};
ghost use Rattle.part_questions.specs.Parts.{part_of};
ghost use Rattle.users_methods.specs.Users.{entry_in};
ghost use Rattle.code_conditions.specs.Passes.{part_passes};

use crate::words::self_name;
use class_table::Image;
use commands::{Condition, MethodPart};
use part_lookup::{KeptPart, UsersPart, kept_part};
use part_questions::{
    MethodCode, are_temporaries_steady, assigns_no_outer, has_no_return, is_first_evaluated,
    is_part, is_value_unused,
};
use rb_base::{Memory, Steps};
use std::alloc::Global;
use std::sync::ledger::Ledger;

/// Whether the condition holds of a part that is found.
fn part_passes(
    alloc: Global,
    image: &Image,
    condition: &Condition,
    found: &UsersPart<'_>,
) -> Result<bool, Memory>
    requires orderly { IsOrderly image.now }
    requires live { IsLive image.now.class_order found.now.method.class }
    ensures { IfOk result (λ is. is ≡ part_passes image.now condition.now (entry_in image.now.classes found.now.method) (part_of found.now.part)) }
{
    let names = image.names();
    let tree = found.method.tree;
    let part = &found.part;
    match condition {
        Condition::PartIs(_) => Ok(is_part(names, tree, part)),
        Condition::NoReturn(_) => has_no_return(alloc, names, tree, part),
        Condition::AssignsNoOuter(_) => assigns_no_outer(alloc, names, tree, part),
        Condition::TempsSteady(_) => are_temporaries_steady(alloc, names, tree, part),
        Condition::ValueUnused(_) => Ok(is_value_unused(tree, part)),
        Condition::FirstEvaluated(_) => {
            let code = MethodCode {
                class: found.method.class,
                meta: found.method.meta,
                tree,
            };
            is_first_evaluated(alloc, image, self_name(names), &code, part)
        }
        _ => Ok(false),
    }
}

/// Whether the user has the method, the part stands in it, and the condition holds of the part; a condition that is none of a
/// part does not. Want of memory, if there is not enough of it to look.
pub fn part_holds<L: Ledger>(
    alloc: Global,
    image: &Image,
    part: &MethodPart,
    condition: &Condition,
    kept: &Option<KeptPart>,
    steps: &mut Steps<L>,
) -> Result<bool, Memory>
    requires orderly { IsOrderly image.now }
    requires kept { ForSome kept.now (IsKept image.now) }
    ensures { IfOk result (λ is. is ≡ option_map_or (λ e. part_passes image.now condition.now e.0 e.1) (part_at (asked_by image.now.names) (number_image image.now) part.now.method.class part.now.method.meta part.now.method.selector part.now.from part.now.to) false) }
{
    match kept_part(alloc, image, part, kept, steps)? {
        None => Ok(false),
        Some(found) => part_passes(alloc, image, condition, &found),
    }
}
