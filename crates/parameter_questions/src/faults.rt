// Whether the code of a method or a do-it has a fault.
ghost use Rattle.std.specs.Prelude.{◌≡◌, [], false, nat_eq, IfOk};
ghost use Rattle.std.specs.List.{list_any};
ghost use Rattle.scope_model.specs.NameTests.{is_pseudo_in};
ghost use Rattle.scope_model.specs.Scope.{local_in};
ghost use Rattle.st_tree.specs.View.{method_of, sequence_of};
ghost use Rattle.class_table.specs.Valid.{IsLive, IsOrderly};
ghost use Rattle.class_table.specs.View.{class_name};
ghost use Rattle.command_model.specs.Places as model;
ghost use Rattle.parameter_questions.specs.Codes.{IsOfLiveClass};
ghost use Rattle.placed_nodes.specs.Placing.{placed};
ghost use Rattle.parameter_questions.specs.Questions.{reads_argument, is_high, sends_in, in_method, in_code};

use crate::code::{Code, body_of, passes_other};
use crate::found::{Sought, found_in};
use crate::question::{Fault, Question};
use class_table::{Image, MethodInfo};
use placed_nodes::PlacedNode;
use rb_base::{Memory, NameId, Names};
use st_scope::{Local, local_at};
use st_tree::{Method, Sequence, height};
use std::alloc::Global;

/// The greatest height of code that is changed.
const HIGHEST: usize = 200;

/// Whether the name is one of the arguments of the method itself.
pub fn is_formal(local: Local) -> bool
    ensures { result ≡ model.is_formal local }
{
    match local {
        Local::Argument { scope } => scope == 0,
        Local::Temporary { .. } | Local::NotLocal => false,
    }
}

/// Whether the name is one of them where one of the nodes stands.
fn is_any_formal(names: &Names, tree: &Method, name: NameId, found: &[PlacedNode<'_>]) -> bool
    ensures { result ≡ list_any (λ e. model.is_formal (local_in nat_eq (is_pseudo_in names.now) (method_of tree.now) e.0 name)) (placed found.now) }
{
    for node in found {
        if is_formal(local_at(tree, &node.path, name, names)) {
            return true;
        }
    }
    false
}

/// Whether the method reads its argument of a number, counted from 0, or has none of that number.
fn reads_argument(
    alloc: Global,
    names: &Names,
    tree: &Method,
    number: usize,
) -> Result<bool, Memory>
    ensures { IfOk result (λ is. is ≡ reads_argument names.now number (method_of tree.now)) }
{
    let Some(name) = tree.arguments.as_slice().get(number) else {
        return Ok(true);
    };
    let found = found_in(alloc, &Sought::Read(*name), &tree.body)?;
    Ok(is_any_formal(names, tree, *name, found.as_slice()))
}

/// Whether the body is higher than 200 nodes.
pub fn is_high(body: &Sequence) -> bool
    ensures { result ≡ is_high (sequence_of body.now) }
{
    for statement in body.statements.as_slice() {
        if height(&statement.node) > HIGHEST {
            return true;
        }
    }
    false
}

/// Whether the body sends the selector.
fn sends_in(alloc: Global, selector: NameId, body: &Sequence) -> Result<bool, Memory>
    ensures { IfOk result (λ is. is ≡ sends_in selector (sequence_of body.now)) }
{
    let found = found_in(alloc, &Sought::Sent(selector), body)?;
    Ok(!found.as_slice().is_empty())
}

/// Whether the method that is asked has the fault.
pub(crate) fn in_method(
    alloc: Global,
    image: &Image,
    question: &Question,
    info: &MethodInfo<'_>,
    tree: &Method,
) -> Result<bool, Memory>
    requires orderly { IsOrderly image.now }
    requires live { IsLive image.now.class_order info.now.class }
    ensures { IfOk result (λ is. is ≡ in_method image.now question.now.selector question.now.fault (record { class = class_name image.now.classes info.now.class; meta = info.now.meta; protocol = []; source = []; tree = method_of tree.now; kernel = false })) }
{
    let selector = question.selector;
    match question.fault {
        Fault::Read { number } => {
            if selector == tree.selector {
                reads_argument(alloc, image.names(), tree, number)
            } else {
                Ok(false)
            }
        }
        Fault::Passed { number } => {
            let code = Code::Method {
                class: info.class,
                meta: info.meta,
                tree,
            };
            passes_other(alloc, image, &code, selector, number)
        }
        Fault::High => {
            if !is_high(&tree.body) {
                Ok(false)
            } else if selector == tree.selector {
                Ok(true)
            } else {
                sends_in(alloc, selector, &tree.body)
            }
        }
    }
}

/// Whether the code, without a selector of its own, has the fault.
pub(crate) fn in_code(
    alloc: Global,
    image: &Image,
    question: &Question,
    code: &Code<'_>,
) -> Result<bool, Memory>
    requires orderly { IsOrderly image.now }
    requires live { IsOfLiveClass image.now code.now }
    ensures { IfOk result (λ is. is ≡ in_code image.now question.now.selector question.now.fault code.now) }
{
    match question.fault {
        Fault::Read { .. } => Ok(false),
        Fault::Passed { number } => { passes_other(alloc, image, code, question.selector, number) }
        Fault::High => {
            let body = body_of(code);
            if is_high(body) {
                sends_in(alloc, question.selector, body)
            } else {
                Ok(false)
            }
        }
    }
}
