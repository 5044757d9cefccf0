// How high the code of an image is after a command that moves code.
ghost use Rattle.std.specs.Prelude.{◌≡◌, ℕ, false, option_map, IfOk};
ghost use Rattle.std.specs.Option.{option_map_or, ForSome};
ghost use Rattle.tree_model.specs.Tree.{MethodOf};
ghost use Rattle.st_tree.specs.View.{method_of};
ghost use Rattle.class_table.specs.Valid.{IsOrderly};
ghost use Rattle.class_table.specs.View.{number_image};
ghost use Rattle.command_model.specs.CodeHolds.{code_holds};
ghost use Rattle.command_model.specs.Conditions.{Shallow};
ghost use Rattle.command_model.specs.ParameterConditions.{is_low};
ghost use Rattle.commands.specs.Views.{asked_by, code_command};
ghost use Rattle.part_lookup.specs.Kept.{IsKept};
ghost use Rattle.reference_index.specs.Mentioned.{IsIndexOf};
ghost use Rattle.code_conditions.specs.Trees.{is_shallow_extracted};

use crate::abstracted::is_shallow_abstracted;
use crate::trees::{with_body, with_temporary, with_value};
use crate::words::self_name;
use abstracted_code::Abstraction;
use class_table::Image;
use commands::{CodeMove, MethodPart};
use extracted_code::extract;
use parameter_questions::is_high;
use part_lookup::{KeptPart, kept_part};
use rb_base::{Memory, NameId, Steps};
use reference_index::Index;
use st_tree::Method;
use std::alloc::Global;
use std::sync::ledger::Ledger;

/// Whether there is a tree, and it is at most 200 nodes high.
fn is_low(tree: &Option<Method>) -> bool
    ensures { result ≡ option_map_or (λ (t : MethodOf ℕ). is_low t.body) (option_map method_of tree.now) false }
{
    match tree {
        None => false,
        Some(tree) => !is_high(&tree.body),
    }
}

/// Whether the part is there, and neither the method that it becomes is higher than 200 nodes nor the one that it is taken from.
fn is_shallow_extracted<L: Ledger>(
    alloc: Global,
    image: &Image,
    part: &MethodPart,
    to: NameId,
    kept: &Option<KeptPart>,
    steps: &mut Steps<L>,
) -> Result<bool, Memory>
    requires orderly { IsOrderly image.now }
    requires kept { ForSome kept.now (IsKept image.now) }
    ensures { IfOk result (λ is. is ≡ is_shallow_extracted image.now part.now to) }
{
    let Some(found) = kept_part(alloc, image, part, kept, steps)? else {
        return Ok(false);
    };
    let names = image.names();
    let made = extract(
        alloc,
        names,
        self_name(names),
        found.method.tree,
        &found.part,
        to,
    )?;
    if is_high(&made.method.body) {
        return Ok(false);
    }
    Ok(!is_high(&made.sender.body))
}

/// Whether what the change names is there, and each method and each do-it that it changes or adds is at most 200 nodes high
/// after it. Opens only these. Want of memory, if there is not enough of it to make the trees.
pub fn is_shallow_after<L: Ledger>(
    alloc: Global,
    image: &Image,
    index: &Index,
    change: &CodeMove,
    kept: &Option<KeptPart>,
    steps: &mut Steps<L>,
) -> Result<bool, Memory>
    requires orderly { IsOrderly image.now }
    requires index { IsIndexOf image.now index.now }
    requires kept { ForSome kept.now (IsKept image.now) }
    ensures { IfOk result (λ is. is ≡ code_holds (asked_by image.now.names) (number_image image.now) (code_command change.now) Shallow) }
{
    match change {
        CodeMove::AbstractVariable {
            class,
            variable,
            setter,
            parameter,
        } => {
            let abstraction = Abstraction {
                class: *class,
                variable: *variable,
                setter: *setter,
                parameter: *parameter,
                self_name: self_name(image.names()),
            };
            is_shallow_abstracted(alloc, image, index, &abstraction, steps)
        }
        CodeMove::ExtractMethod { part, to } => {
            is_shallow_extracted(alloc, image, part, *to, kept, steps)
        }
        CodeMove::InlineMethod(part) => {
            let tree = with_body(alloc, image, part, kept, steps)?;
            Ok(is_low(&tree))
        }
        CodeMove::ExtractTemporary { part, variable } => {
            let tree = with_temporary(alloc, image, part, *variable, kept, steps)?;
            Ok(is_low(&tree))
        }
        CodeMove::InlineTemporary { method, variable } => {
            let tree = with_value(alloc, image, method, *variable, steps)?;
            Ok(is_low(&tree))
        }
    }
}
