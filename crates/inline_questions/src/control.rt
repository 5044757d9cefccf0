// Whether an expression that stands in place of a message makes a control send.
ghost use Rattle.std.specs.Prelude.{◌≡◌, ◌∷◌, [], IfOk};
ghost use Rattle.tree_model.specs.Path.{with_child};
ghost use Rattle.scope_model.specs.Control.{is_control};
ghost use Rattle.scope_model.specs.NameTests.{form_in};
ghost use Rattle.st_tree.specs.View.{method_of, sequence_of};
ghost use Rattle.class_table.specs.View.{number_image};
ghost use Rattle.command_model.specs.InlineConditions as model;
ghost use Rattle.commands.specs.Views.{asked_by};
ghost use Rattle.part_questions.specs.Codes.{entry_of};
ghost use Rattle.inlined_code.specs.Sending.{send_of};
ghost use Rattle.inline_questions.specs.Codes.{alone, entry_in};

use crate::code::Call;
use class_table::Image;
use inlined_code::{answered, unfolded};
use rb_base::{Ids, Memory, Names};
use st_scope::is_control;
use st_tree::{Comments, Method, Node, Path, Sequence, Statement, Statements, part_at};
use std::alloc::Global;
use tree_lending::put_at_doit;

/// A do-it of the one expression.
pub(crate) fn alone(alloc: Global, node: &Node) -> Result<Sequence, Memory>
    ensures { IfOk result (λ body. sequence_of body ≡ alone node.now) }
{
    let mut items = Vec::new(alloc);
    let comments = Comments::new(alloc);
    let node = node.try_copy(alloc)?;
    items.push(Statement { comments, node })?;
    Ok(Sequence {
        temporaries: Ids::new(alloc),
        statements: Statements::from_vec(items),
        tail: Comments::new(alloc),
    })
}

/// The path of a step to the first statement and of another one.
fn second_path(alloc: Global, step: usize) -> Result<Path, Memory>
    ensures { IfOk result (λ path. path ≡ 0 ∷ step ∷ []) }
{
    let mut path = Path::new(alloc);
    path.push(0)?;
    path.push(step)?;
    Ok(path)
}

/// Whether the node is a control send once another node stands where one step leads.
fn is_control_with(
    alloc: Global,
    names: &Names,
    above: &Node,
    step: usize,
    node: &Node,
) -> Result<bool, Memory>
    ensures { IfOk result (λ is. is ≡ is_control (form_in names.now) (with_child above.now step node.now)) }
{
    let mut body = alone(alloc, above)?;
    put_at_doit(&mut body, &second_path(alloc, step)?, node.try_copy(alloc)?);
    match body.statements.as_slice().split_first() {
        None => Ok(false),
        Some((statement, _)) => Ok(is_control(&statement.node, names)),
    }
}

/// Whether the node above the end of the path becomes a control send by a node that is put there. Want of memory, if there is not
/// enough of it for a copy of these nodes.
pub fn makes_control(
    alloc: Global,
    names: &Names,
    method: &Method,
    path: &Path,
    node: &Node,
) -> Result<bool, Memory>
    ensures { IfOk result (λ is. is ≡ model.makes_control (form_in names.now) (method_of method.now) path.now node.now) }
{
    let Some((step, before)) = path.as_slice().split_last() else {
        return Ok(false);
    };
    let before = Path::from_vec(Vec::from_slice(alloc, before)?);
    match part_at(method, &before) {
        None => Ok(false),
        Some(above) => {
            if is_control(above, names) {
                return Ok(false);
            }
            is_control_with(alloc, names, above, *step, node)
        }
    }
}

/// Whether the expression that is to stand in place of the message makes no control send of the node above it; also where no
/// expression is to stand there. Want of memory, if there is not enough of it for the expression.
pub fn makes_no_control(alloc: Global, image: &Image, call: &Call<'_>) -> Result<bool, Memory>
    ensures { IfOk result (λ is. is ≡ model.makes_no_control (asked_by image.now.names) (number_image image.now) (entry_of image.now call.now.method) (send_of call.now.sent) (entry_in image.now call.now.target)) }
{
    let names = image.names();
    let sent = &call.sent;
    let statements = unfolded(alloc, names, call.target.code.tree, sent.arguments)?;
    match answered(statements.as_slice()) {
        None => Ok(true),
        Some(node) => {
            let makes = makes_control(alloc, names, call.method.tree, sent.path, node)?;
            Ok(!makes)
        }
    }
}
