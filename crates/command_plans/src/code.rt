// The changes by which code moves.
ghost use Rattle.std.specs.Prelude.{◌≡◌, ◌<◌, length, None, IfOk};
ghost use Rattle.std.specs.Option.{ForSome};
ghost use Rattle.class_table.specs.Valid.{IsOrderly};
ghost use Rattle.class_table.specs.View.{number_image};
ghost use Rattle.wider_slots.specs.Closed.{IsClosed};
ghost use Rattle.wider_slots.specs.Wider.{Wider};
ghost use Rattle.command_model.specs.Judged.{first_false};
ghost use Rattle.command_numbers.specs.CommandNames.{CommandNames};
ghost use Rattle.commands.specs.Views.{asked_by, code_command, HasSelf};
ghost use Rattle.commands.specs.declared.command.CodeMove.TheVariants as code;
ghost use Rattle.reference_index.specs.Mentioned.{IsIndexOf};
ghost use Rattle.part_lookup.specs.Kept.{IsKept};
ghost use Rattle.plans.specs.Plan.{IsPlan};

use abstract_plans::plan_abstraction;
use abstracted_code::Abstraction;
use class_table::Image;
use code_plans::{
    plan_extracted_temporary, plan_extraction, plan_inlined_message, plan_inlined_temporary,
};
use commands::{CodeMove, MethodPart};
use part_lookup::{KeptPart, kept_part};
use plans::Plan;
use rb_base::{Memory, NameId, Steps};
use reference_index::Index;
use std::alloc::Global;
use std::sync::ledger::Ledger;
use temporary_plans::no_changes;
use wider_slots::law_wider;

/// The change by which a temporary stands in place of an expression; none where there is no such part.
fn plan_temporary_of<L: Ledger>(
    alloc: Global,
    image: &Image,
    index: &Index,
    part: MethodPart,
    variable: NameId,
    kept: &Option<KeptPart>,
    steps: &mut Steps<L>,
) -> Result<Plan, Memory>
    requires orderly { IsOrderly image.now }
    requires index { IsIndexOf image.now index.now }
    requires kept { ForSome kept.now (IsKept image.now) }
    requires known { variable < length image.now.names }
    ensures { IfOk result (λ found. IsPlan image.now (code_command (code.ExtractTemporary part variable)) found.changes found.touched.items) }
{
    let Some(found) = kept_part(alloc, image, &part, kept, steps)? else {
        return Ok(no_changes(alloc));
    };
    plan_extracted_temporary(alloc, image, index, part, &found.part, variable, steps)
}

/// The changes by which the code moves, and the room that they need.
pub(crate) fn plan_code<L: Ledger>(
    alloc: Global,
    image: &mut Image,
    index: &Index,
    change: &CodeMove,
    kept: &Option<KeptPart>,
    steps: &mut Steps<L>,
) -> Result<Plan, Memory>
    requires closed { IsClosed image.old }
    requires orderly { IsOrderly image.old }
    requires index { IsIndexOf image.old index.now }
    requires kept { ForSome kept.now (IsKept image.old) }
    requires self_known { HasSelf image.old.names }
    requires known { CommandNames (λ n. n < length image.old.names) (code_command change.now) }
    requires holds { first_false (asked_by image.old.names) (number_image image.old) (code_command change.now) ≡ None }
    ensures wider { Wider image.old image.new }
    ensures names { image.new.names ≡ image.old.names }
    ensures plan { IfOk result (λ found. IsPlan image.new (code_command change.now) found.changes found.touched.items) }
{
    law_wider();
    // The table has the name.
    let self_name = image.names().find(b"self").unwrap_or(NameId(0));
    match *change {
        CodeMove::AbstractVariable {
            class,
            variable,
            setter,
            parameter,
        } => {
            let abstraction = Abstraction {
                class,
                variable,
                setter,
                parameter,
                self_name,
            };
            plan_abstraction(alloc, image, index, &abstraction, steps)
        }
        CodeMove::ExtractMethod { part, to } => {
            plan_extraction(alloc, image, index, &part, to, self_name, kept, steps)
        }
        CodeMove::InlineMethod(part) => {
            plan_inlined_message(alloc, image, index, &part, kept, steps)
        }
        CodeMove::ExtractTemporary { part, variable } => {
            plan_temporary_of(alloc, image, index, part, variable, kept, steps)
        }
        CodeMove::InlineTemporary { method, variable } => {
            plan_inlined_temporary(alloc, image, index, method, variable, steps)
        }
    }
}
