// A method in which the body of another one stands in place of a message.
ghost use Rattle.std.specs.Prelude.{◌≡◌, option_map, option_and_then, IfOk};
ghost use Rattle.tree_model.specs.Path.{method_replaced};
ghost use Rattle.st_tree.specs.View.{method_of, statements_of};
ghost use Rattle.command_model.specs.Inlined as model;
ghost use Rattle.command_model.specs.Parts.{Expression};
ghost use Rattle.command_model.specs.Places.{sent_by};
ghost use Rattle.commands.specs.Views.{asked_by};
ghost use Rattle.inlined_code.specs.Answering.{unreturned};

use crate::passing::{answered, unfolded};
use crate::places::{sequence_round, whole_statement};
use crate::sent::sent_by;
use crate::sequences::statement_replaced;
use rb_base::{Memory, Names};
use st_tree::{Method, Node, NodeKind, Path, Statement, Statements, try_copy};
use std::alloc::Global;
use tree_lending::put_at;

/// What a return answers, or the node itself where it is none.
fn without_return(node: Node) -> Node
    ensures { result ≡ unreturned node }
{
    match node.into_kind() {
        NodeKind::Return { value } => Box::into_inner(value),
        kind => Node { kind },
    }
}

/// The statements, with e for a last `^e`.
fn last_unanswered(statements: Statements) -> Result<Statements, Memory>
    ensures { IfOk result (λ after. statements_of after ≡ model.last_unanswered (statements_of statements)) }
{
    let mut items = statements.into_vec();
    let Some(statement) = items.pop() else {
        return Ok(Statements::from_vec(items));
    };
    let Statement { comments, node } = statement;
    let node = without_return(node);
    items.push(Statement { comments, node })?;
    Ok(Statements::from_vec(items))
}

/// The method with another node at the end of the path.
fn with_node(alloc: Global, method: &Method, path: &Path, node: &Node) -> Result<Method, Memory>
    ensures { IfOk result (λ after. method_of after ≡ method_replaced (method_of method.now) path.now node.now) }
{
    let mut after = try_copy(alloc, method)?;
    put_at(&mut after, path, node.try_copy(alloc)?);
    Ok(after)
}

/// The method in which the body of the target stands in place of the message at the end of the path: the expression that it
/// answers, or else its statements, where the message is a whole statement. `None` where no message stands there, or neither
/// is so. Want of memory, if there is not enough of it for the method.
pub fn tree_inlined(
    alloc: Global,
    names: &Names,
    method: &Method,
    path: &Path,
    target: &Method,
) -> Result<Option<Method>, Memory>
    ensures { IfOk result (λ after. option_map method_of after ≡ option_and_then (λ e. model.tree_inlined (asked_by names.now) (method_of method.now) e (method_of target.now)) (sent_by (method_of method.now) (Expression path.now))) }
{
    let Some(sent) = sent_by(method, path) else {
        return Ok(None);
    };
    let statements = unfolded(alloc, names, target, sent.arguments)?;
    if let Some(node) = answered(statements.as_slice()) {
        return Ok(Some(with_node(alloc, method, path, node)?));
    }
    let Some(number) = whole_statement(method, path) else {
        return Ok(None);
    };
    let sequence = sequence_round(alloc, method, path)?;
    let new = last_unanswered(statements)?;
    Ok(Some(statement_replaced(alloc, method, &sequence, number, new)?))
}
