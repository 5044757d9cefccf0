// Whether what a message passes may be evaluated wherever the method that it finds reads it.
ghost use Rattle.std.specs.Prelude.{◌≡◌, IfOk};
ghost use Rattle.std.specs.List.{list_any};
ghost use Rattle.tree_model.specs.Tree.{trees_of};
ghost use Rattle.scope_model.specs.NameTests.{form_in};
ghost use Rattle.st_tree.specs.View.{method_of};
ghost use Rattle.class_table.specs.Valid.{IsOrderly};
ghost use Rattle.class_table.specs.View.{number_image};
ghost use Rattle.command_model.specs.InlineConditions as model;
ghost use Rattle.command_model.specs.ParameterConditions.{formal_reads};
ghost use Rattle.command_model.specs.Places.{is_formal, stands_in_closure};
ghost use Rattle.commands.specs.Views.{asked_by};
ghost use Rattle.placed_nodes.specs.Placing.{placed};
ghost use Rattle.part_questions.specs.Codes.{entry_of};
ghost use Rattle.inlined_code.specs.Sending.{send_of};
ghost use Rattle.inline_questions.specs.Codes.{entry_in, IsCall};
ghost use Rattle.inline_questions.specs.Actuals.{is_enclosed, is_open_temporary, is_actual_plain, all_passed};

use crate::code::Call;
use class_table::Image;
use name_meanings::{Meaning, method_meaning};
use part_questions::{is_assigned_in_the_open, is_plain, stands_in_closure};
use placed_nodes::{PlacedNode, placed_nodes};
use rb_base::{Memory, NameId, Names};
use st_scope::{Local, local_at};
use st_tree::{Method, Node, NodeKind};
use std::alloc::Global;

/// Whether the name is one of the arguments of the method itself.
fn is_formal(local: Local) -> bool
    ensures { result ≡ is_formal local }
{
    match local {
        Local::Argument { scope } => scope == 0,
        Local::Temporary { .. } | Local::NotLocal => false,
    }
}

/// Whether the node reads the argument of the method in a closure.
fn is_enclosed(names: &Names, method: &Method, formal: NameId, found: &PlacedNode<'_>) -> bool
    ensures { result ≡ is_enclosed names.now (method_of method.now) formal (found.now.path, found.now.node.now) }
{
    let node = found.node;
    match &node.kind {
        NodeKind::Var { name } => {
            formal == *name
                && is_formal(local_at(method, &found.path, *name, names))
                && stands_in_closure(names, method, 1, &found.path)
        }
        _ => false,
    }
}

/// Whether one of the nodes does.
fn is_any_enclosed(names: &Names, method: &Method, formal: NameId, found: &[PlacedNode<'_>]) -> bool
    ensures { result ≡ list_any (is_enclosed names.now (method_of method.now) formal) (placed found.now) }
{
    for node in found {
        if is_enclosed(names, method, formal, node) {
            return true;
        }
    }
    false
}

/// Whether a closure reads the argument of the method.
fn is_read_in_closure(
    alloc: Global,
    names: &Names,
    method: &Method,
    formal: NameId,
) -> Result<bool, Memory>
    ensures { IfOk result (λ is. is ≡ list_any (stands_in_closure (form_in names.now) (method_of method.now) 1) (formal_reads (asked_by names.now) (method_of method.now) formal)) }
{
    let found = placed_nodes(alloc, &method.body)?;
    Ok(is_any_enclosed(names, method, formal, found.as_slice()))
}

/// Whether what is passed for an argument of the target is a temporary that no closure assigns, for an argument that no closure
/// reads.
fn is_open_temporary(
    alloc: Global,
    image: &Image,
    call: &Call<'_>,
    formal: NameId,
    node: &Node,
) -> Result<bool, Memory>
    requires orderly { IsOrderly image.now }
    requires call { IsCall image.now call.now }
    ensures { IfOk result (λ is. is ≡ is_open_temporary image.now call.now formal node.now) }
{
    let NodeKind::Var { name } = &node.kind else {
        return Ok(false);
    };
    let code = &call.method;
    let path = call.sent.path;
    match method_meaning(image, code.class, code.meta, code.tree, path, *name) {
        Meaning::Temporary { scope } => {
            if !is_assigned_in_the_open(alloc, image.names(), code.tree, path, scope, *name)? {
                return Ok(false);
            }
            let read = is_read_in_closure(alloc, image.names(), call.target.code.tree, formal)?;
            Ok(!read)
        }
        _ => Ok(false),
    }
}

/// Whether what is passed for an argument of the target is plain, or is a temporary that no closure assigns, for an argument
/// that no closure reads. `self_name` is the number of the name `self`. Want of memory, if there is not enough of it to look.
pub fn is_actual_plain(
    alloc: Global,
    image: &Image,
    call: &Call<'_>,
    self_name: NameId,
    formal: NameId,
    node: &Node,
) -> Result<bool, Memory>
    requires orderly { IsOrderly image.now }
    requires call { IsCall image.now call.now }
    ensures { IfOk result (λ is. is ≡ is_actual_plain image.now call.now self_name formal node.now) }
{
    if is_plain(image, self_name, &call.method, call.sent.path, node) {
        return Ok(true);
    }
    is_open_temporary(alloc, image, call, formal, node)
}

/// Whether so much is passed, and all that is passed for these arguments is so.
fn are_plain(
    alloc: Global,
    image: &Image,
    call: &Call<'_>,
    self_name: NameId,
    formals: &[NameId],
    passed: &[Node],
) -> Result<bool, Memory>
    requires orderly { IsOrderly image.now }
    requires call { IsCall image.now call.now }
    ensures { IfOk result (λ is. is ≡ all_passed (is_actual_plain image.now call.now self_name) formals.now (trees_of passed.now)) }
{
    let Some((formal, formals)) = formals.split_first() else {
        return Ok(true);
    };
    let Some((node, passed)) = passed.split_first() else {
        return Ok(false);
    };
    if !is_actual_plain(alloc, image, call, self_name, *formal, node)? {
        return Ok(false);
    }
    are_plain(alloc, image, call, self_name, formals, passed)
}

/// Whether all that the message passes is plain, or is a temporary that no closure assigns for an argument that no closure
/// reads. `self_name` is the number of the name `self`. Want of memory, if there is not enough of it to look.
pub fn are_actuals_plain(
    alloc: Global,
    image: &Image,
    call: &Call<'_>,
    self_name: NameId,
) -> Result<bool, Memory>
    requires orderly { IsOrderly image.now }
    requires call { IsCall image.now call.now }
    requires self_name { self_name ≡ (asked_by image.now.names).self_name }
    ensures { IfOk result (λ is. is ≡ model.are_actuals_plain (asked_by image.now.names) (number_image image.now) (entry_of image.now call.now.method) (send_of call.now.sent) (entry_in image.now call.now.target)) }
{
    let formals = call.target.code.tree.arguments.as_slice();
    let passed = call.sent.arguments.as_slice();
    are_plain(alloc, image, call, self_name, formals, passed)
}
