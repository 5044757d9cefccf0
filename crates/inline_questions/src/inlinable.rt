// Whether the body of the method that a message finds may stand in its place.
ghost use Rattle.std.specs.Prelude.{◌≡◌, nat_eq, IfOk};
ghost use Rattle.std.specs.List.{list_any};
ghost use Rattle.rb_base.specs.Names.{text_eq};
ghost use Rattle.st_tree.specs.View.{method_of, statements_of};
ghost use Rattle.st_tree.specs.declared.tree.Statement.{Statement};
ghost use Rattle.class_table.specs.Valid.{IsLive, IsOrderly};
ghost use Rattle.class_table.specs.View.{number_image};
ghost use Rattle.command_model.specs.Hierarchy.{is_method_of};
ghost use Rattle.command_model.specs.InlineConditions as model;
ghost use Rattle.command_model.specs.Places.{is_return};
ghost use Rattle.command_model.specs.SameMethods.{is_super_node};
ghost use Rattle.commands.specs.Views.{asked_by};
ghost use Rattle.placed_nodes.specs.Placing.{placed};
ghost use Rattle.part_questions.specs.Codes.{entry_of};
ghost use Rattle.inlined_code.specs.Sending.{send_of};
ghost use Rattle.inline_questions.specs.Codes.{entry_in, IsCall};
ghost use Rattle.inline_questions.specs.Bound.{is_bound, answers_last, is_statement_between, is_fit};

use crate::code::Call;
use class_table::Image;
use inlined_code::{answered, sequence_round, whole_statement};
use part_questions::{MethodCode, innermost, statements_at};
use placed_nodes::{PlacedNode, placed_nodes};
use rb_base::{Memory, NameId, Names};
use st_tree::{Method, Node, NodeKind, Path, Statement};
use std::alloc::Global;

/// Whether the node is a return.
fn is_return(node: &Node) -> bool
    ensures { result ≡ is_return node.now }
{
    matches!(&node.kind, NodeKind::Return { .. })
}

fn same_text(a: &[u8], b: &[u8]) -> bool
    ensures { result ≡ text_eq a.now b.now }
{
    a == b
}

/// Whether the node is `super`.
fn is_super_node(names: &Names, node: &Node) -> bool
    ensures { result ≡ is_super_node (asked_by names.now).is_super node.now }
{
    match &node.kind {
        NodeKind::Var { name } => {
            name.0 < names.len() && same_text(b"super", names.text_of(*name))
        }
        _ => false,
    }
}

/// Whether the node keeps the body of its method where it is: a return in a block, or `super` where the class is another one.
fn is_bound(names: &Names, found: &PlacedNode<'_>, same_class: bool) -> bool
    ensures { result ≡ is_bound (asked_by names.now).is_super same_class (found.now.path, found.now.node.now) }
{
    (is_return(found.node) && 1 < found.path.len())
        || (is_super_node(names, found.node) && !same_class)
}

/// Whether one of the nodes does.
fn is_any_bound(names: &Names, found: &[PlacedNode<'_>], same_class: bool) -> bool
    ensures { result ≡ list_any (is_bound (asked_by names.now).is_super same_class) (placed found.now) }
{
    for node in found {
        if is_bound(names, node, same_class) {
            return true;
        }
    }
    false
}

/// Whether the method is one of the class of the name.
pub fn is_method_of(image: &Image, class: NameId, method: &MethodCode<'_>) -> bool
    requires live { IsLive image.now.class_order method.now.class }
    ensures { result ≡ is_method_of nat_eq class (entry_of image.now method.now) }
{
    match image.class_rec(method.class) {
        None => false,
        Some(rec) => class == rec.name,
    }
}

/// Whether one of the statements is a return.
fn is_any_return(statements: &[Statement]) -> bool
    ensures { result ≡ list_any (λ (s : Statement). is_return s.node) statements.now }
{
    for statement in statements {
        if is_return(&statement.node) {
            return true;
        }
    }
    false
}

/// Whether no statement but the last one is a return.
fn answers_last(statements: &[Statement]) -> bool
    ensures { result ≡ answers_last (statements_of statements.now) }
{
    match statements.split_last() {
        None => true,
        Some((_, before)) => !is_any_return(before),
    }
}

/// Whether the path leads to a whole statement that does not end a block.
fn is_statement_between(alloc: Global, method: &Method, path: &Path) -> Result<bool, Memory>
    ensures { IfOk result (λ is. is ≡ is_statement_between (method_of method.now) path.now) }
{
    let Some(number) = whole_statement(method, path) else {
        return Ok(false);
    };
    if innermost(method, path) == 0 {
        return Ok(true);
    }
    let sequence = sequence_round(alloc, method, path)?;
    let count = statements_at(method, &sequence).len();
    Ok(number < count.saturating_sub(1))
}

/// Whether the body answers one expression, or no statement but its last one is a return and the message is a whole statement
/// that does not end a block. Want of memory, if there is not enough of it for a path.
pub fn is_fit(
    alloc: Global,
    method: &Method,
    path: &Path,
    statements: &[Statement],
) -> Result<bool, Memory>
    ensures { IfOk result (λ is. is ≡ is_fit (method_of method.now) path.now (statements_of statements.now)) }
{
    if answered(statements).is_some() {
        return Ok(true);
    }
    if !answers_last(statements) {
        return Ok(false);
    }
    is_statement_between(alloc, method, path)
}

/// Whether the method that the message finds is one of the user without temporaries, with no return in a block, and with
/// `super` only where it is of the class of the name, that of the message; and it answers one expression, or no statement but its
/// last one is a return and the message is a whole statement that does not end a block. Want of memory, if there is not enough
/// of it to look.
pub fn is_inlinable(
    alloc: Global,
    image: &Image,
    class: NameId,
    call: &Call<'_>,
) -> Result<bool, Memory>
    requires orderly { IsOrderly image.now }
    requires call { IsCall image.now call.now }
    ensures { IfOk result (λ is. is ≡ model.is_inlinable (asked_by image.now.names) (number_image image.now) class (entry_of image.now call.now.method) (send_of call.now.sent) (entry_in image.now call.now.target)) }
{
    let code = &call.target.code;
    let body = &code.tree.body;
    if call.target.kernel {
        return Ok(false);
    }
    if !body.temporaries.as_slice().is_empty() {
        return Ok(false);
    }
    let found = placed_nodes(alloc, body)?;
    let same_class = is_method_of(image, class, code);
    if is_any_bound(image.names(), found.as_slice(), same_class) {
        return Ok(false);
    }
    is_fit(
        alloc,
        call.method.tree,
        call.sent.path,
        body.statements.as_slice(),
    )
}
