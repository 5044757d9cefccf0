// The changes by which an argument comes or goes.
ghost use Rattle.std.specs.Prelude.{◌<◌, length, IfOk};
ghost use Rattle.class_table.specs.Valid.{IsOrderly};
ghost use Rattle.command_numbers.specs.CommandNames.{CommandNames};
ghost use Rattle.reference_index.specs.Mentioned.{IsIndexOf};
ghost use Rattle.plans.specs.Plan.{IsPlan};
ghost use Rattle.parameter_plans.specs.Given.{parameter_command};

use crate::code::code_change;
use crate::given::ParameterChange;
use crate::laws::law_known;
use change_set::Changes;
use class_table::Image;
use plans::Plan;
use rb_base::{Memory, Steps};
use reference_index::Index;
use std::alloc::Global;
use std::sync::ledger::Ledger;

/// The changes by which an argument comes to a selector or leaves it: one of each method and do-it that has or sends the
/// selector. Only code that mentions it is opened, each once.
pub fn plan_parameter<L: Ledger>(
    alloc: Global,
    image: &Image,
    index: &Index,
    parameter: &ParameterChange<'_>,
    steps: &mut Steps<L>,
) -> Result<Plan, Memory>
    requires orderly { IsOrderly image.now }
    requires index { IsIndexOf image.now index.now }
    requires known { CommandNames (λ n. n < length image.now.names) (parameter_command parameter.now) }
    ensures { IfOk result (λ found. IsPlan image.now (parameter_command parameter.now) found.changes found.touched.items) }
{
    law_known();
    let mut changes = Changes::new(alloc);
    let mut touched = Vec::new(alloc);
    for place in index.listed(parameter.selector()) {
        if let Some(change) = code_change(alloc, image, *place, parameter, steps)? {
            changes.push(change)?;
            touched.push(*place)?;
        }
    }
    Ok(Plan { changes, touched })
}
