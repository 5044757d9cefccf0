// The conditions of a part that is taken out of a method.
ghost use Rattle.std.specs.Prelude.{◌≡◌, IfOk};
ghost use Rattle.st_tree.specs.View.{method_of};
ghost use Rattle.command_model.specs.Asked.{no_parts};
ghost use Rattle.command_model.specs.Numbers.{number_asked};
ghost use Rattle.command_model.specs.SameMethods as same;
ghost use Rattle.command_model.specs.PartConditions as model;
ghost use Rattle.part_questions.specs.Parts.{part_of};

use crate::faults::{Asked, Fault, is_faulty, is_return};
use crate::names::is_super;
use crate::places::{is_in_place, statements_at};
use rb_base::{Memory, Names};
use st_tree::{Method, Node, NodeKind, Part, part_at};
use std::alloc::Global;

/// Whether the node is `super`.
fn is_super_node(names: &Names, node: &Node) -> bool
    ensures { result ≡ same.is_super_node (number_asked names.now 0 no_parts).is_super node.now }
{
    match &node.kind {
        NodeKind::Var { name } => is_super(names, *name),
        _ => false,
    }
}

/// Whether the part may be taken out: an expression that is neither a return nor `super` nor a block of a control send, or
/// neighbouring statements.
pub fn is_part(names: &Names, method: &Method, part: &Part) -> bool
    ensures { result ≡ model.is_part (number_asked names.now 0 no_parts) (method_of method.now) (part_of part.now) }
{
    match part {
        Part::Expression { path } => match part_at(method, path) {
            None => false,
            Some(node) => {
                !is_return(node) && !is_super_node(names, node) && !is_in_place(names, method, path)
            }
        },
        Part::Run { .. } => true,
    }
}

/// Whether no node of the part is a return. Want of memory, if there is not enough of it to look.
pub fn has_no_return(
    alloc: Global,
    names: &Names,
    method: &Method,
    part: &Part,
) -> Result<bool, Memory>
    ensures { IfOk result (λ is. is ≡ model.has_no_return (method_of method.now) (part_of part.now)) }
{
    let asked = Asked {
        names,
        method,
        part,
    };
    Ok(!is_faulty(alloc, &asked, Fault::Return)?)
}

/// Whether no node of the part assigns what is declared outside it. Want of memory, if there is not enough of it to look.
pub fn assigns_no_outer(
    alloc: Global,
    names: &Names,
    method: &Method,
    part: &Part,
) -> Result<bool, Memory>
    ensures { IfOk result (λ is. is ≡ model.assigns_no_outer (number_asked names.now 0 no_parts) (method_of method.now) (part_of part.now)) }
{
    let asked = Asked {
        names,
        method,
        part,
    };
    Ok(!is_faulty(alloc, &asked, Fault::AssignsOuter)?)
}

/// Whether each temporary that the part names is declared inside it; or no closure assigns it, and none in the part reads it.
/// Want of memory, if there is not enough of it to look.
pub fn are_temporaries_steady(
    alloc: Global,
    names: &Names,
    method: &Method,
    part: &Part,
) -> Result<bool, Memory>
    ensures { IfOk result (λ is. is ≡ model.are_temporaries_steady (number_asked names.now 0 no_parts) (method_of method.now) (part_of part.now)) }
{
    let asked = Asked {
        names,
        method,
        part,
    };
    Ok(!is_faulty(alloc, &asked, Fault::Unsteady)?)
}

/// Whether nothing is done with the value of the last statement: the part is an expression, or statements of the method's own,
/// or statements that do not end a block.
pub fn is_value_unused(method: &Method, part: &Part) -> bool
    ensures { result ≡ model.is_value_unused (method_of method.now) (part_of part.now) }
{
    match part {
        Part::Expression { path } => match part_at(method, path) {
            None => false,
            Some(node) => !is_return(node),
        },
        Part::Run { path, first, count } => {
            if path.len() == 0 {
                return true;
            }
            let all = statements_at(method, path).len();
            *count < all.saturating_sub(*first)
        }
    }
}
