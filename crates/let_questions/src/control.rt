// Whether a node that is put somewhere makes a control send.
ghost use Rattle.std.specs.Prelude.{◌≡◌, IfOk};
ghost use Rattle.std.specs.List.{list_any};
ghost use Rattle.scope_model.specs.NameTests.{form_in};
ghost use Rattle.st_tree.specs.View.{method_of};
ghost use Rattle.class_table.specs.View.{number_image};
ghost use Rattle.command_model.specs.Asked.{no_parts};
ghost use Rattle.command_model.specs.InlineConditions as inline;
ghost use Rattle.command_model.specs.LetConditions as model;
ghost use Rattle.command_model.specs.Numbers.{number_asked};
ghost use Rattle.let_code.specs.Lets.{let_as};
ghost use Rattle.part_questions.specs.Codes.{entry_of};

use crate::question::LetCode;
use class_table::Image;
use inline_questions::makes_control;
use let_code::reads_of;
use rb_base::{Memory, Names};
use st_tree::{Method, Node, Path};
use std::alloc::Global;

/// Whether the node makes a control send of the one above it where any of the paths leads.
fn makes_any_control(
    alloc: Global,
    names: &Names,
    method: &Method,
    reads: &[Path],
    node: &Node,
) -> Result<bool, Memory>
    ensures { IfOk result (λ is. is ≡ list_any (λ r. inline.makes_control (form_in names.now) (method_of method.now) r node.now) reads.now) }
{
    for read in reads {
        if makes_control(alloc, names, method, read, node)? {
            return Ok(true);
        }
    }
    Ok(false)
}

/// Whether the value makes no control send of the node above a read. Want of memory, if there is not enough of it to look.
pub fn is_value_no_control(
    alloc: Global,
    image: &Image,
    question: &LetCode<'_>,
) -> Result<bool, Memory>
    ensures { IfOk result (λ is. is ≡ model.is_value_no_control (number_asked image.now.names 0 no_parts) (number_image image.now) (entry_of image.now question.now.code) question.now.variable (let_as question.now.assignment.now)) }
{
    let names = image.names();
    let tree = question.code.tree;
    let reads = reads_of(alloc, names, tree, question.variable)?;
    let value = question.assignment.value;
    Ok(!makes_any_control(alloc, names, tree, reads.as_slice(), value)?)
}
