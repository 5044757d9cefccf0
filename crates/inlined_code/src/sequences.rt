// Statements that stand in place of one statement.
ghost use Rattle.std.specs.Prelude.{◌≡◌, ◌++◌, IfOk, OnOk};
ghost use Rattle.scope_model.specs.FreeNames.{drop_statements};
ghost use Rattle.st_tree.specs.View.{method_of, sequence_of, statements_of};
ghost use Rattle.command_model.specs.Sequences as model;

use rb_base::Memory;
use st_tree::{
    Comments, Method, Node, NodeKind, Path, Sequence, Statement, Statements, part_at, try_copy,
};
use std::alloc::Global;
use std::mem::replace;
use tree_lending::put_at;

/// Puts comments before others.
fn put_before(alloc: Global, comments: Comments, others: &mut Comments) -> Result<(), Memory>
    ensures { OnOk result (others.new ≡ comments ++ others.old) }
{
    let mut all = comments.into_vec();
    let mut rest = replace(others, Comments::new(alloc)).into_vec();
    all.append(&mut rest)?;
    *others = Comments::from_vec(all);
    Ok(())
}

/// Takes the first statement out, if there is one, and answers its comments.
fn take_first(alloc: Global, statements: &mut Vec<Statement>) -> Comments
    ensures comments { result ≡ model.first_notes (statements_of statements.old.items) }
    ensures rest { statements_of statements.new.items ≡ drop_statements 1 (statements_of statements.old.items) }
{
    if statements.is_empty() {
        return Comments::new(alloc);
    }
    statements.remove(0).comments
}

/// Puts comments before those of the first statement, or at the end where there is none.
fn put_notes(
    alloc: Global,
    comments: Comments,
    statements: &mut Vec<Statement>,
    tail: &mut Comments,
) -> Result<(), Memory>
    ensures statements { OnOk result (statements_of statements.new.items ≡ model.noted comments (statements_of statements.old.items)) }
    ensures tail { OnOk result (tail.new ≡ model.noted_tail comments (statements_of statements.old.items) tail.old) }
{
    if statements.is_empty() {
        return put_before(alloc, comments, tail);
    }
    put_before(alloc, comments, &mut statements[0].comments)
}

/// Puts statements in place of the one of a number, counted from 0; its comments go to what then stands there. After an error
/// the sequence may be anything.
pub fn put_for(
    alloc: Global,
    body: &mut Sequence,
    number: usize,
    new: Statements,
) -> Result<(), Memory>
    ensures { OnOk result (sequence_of body.new ≡ model.put_for number (statements_of new) (sequence_of body.old)) }
{
    let mut items = replace(&mut body.statements, Statements::new(alloc)).into_vec();
    let at = number.min(items.len());
    let mut after = items.split_off(at)?;
    let comments = take_first(alloc, &mut after);
    let mut put = new.into_vec();
    put.append(&mut after)?;
    put_notes(alloc, comments, &mut put, &mut body.tail)?;
    items.append(&mut put)?;
    body.statements = Statements::from_vec(items);
    Ok(())
}

/// Does so in a block. Any other node stays.
fn put_in_block(
    alloc: Global,
    node: &mut Node,
    number: usize,
    new: Statements,
) -> Result<(), Memory>
    ensures { OnOk result (node.new ≡ model.block_changed (model.put_for number (statements_of new)) node.old) }
{
    match &mut node.kind {
        NodeKind::Block { body, .. } => put_for(alloc, body, number, new),
        _ => Ok(()),
    }
}

/// The method in which statements stand in place of the one of a number of the sequence at the end of the path.
pub fn statement_replaced(
    alloc: Global,
    method: &Method,
    path: &Path,
    number: usize,
    new: Statements,
) -> Result<Method, Memory>
    ensures { IfOk result (λ after. method_of after ≡ model.sequence_changed (model.put_for number (statements_of new)) path.now (method_of method.now)) }
{
    let mut after = try_copy(alloc, method)?;
    if path.len() == 0 {
        put_for(alloc, &mut after.body, number, new)?;
        return Ok(after);
    }
    if let Some(node) = part_at(method, path) {
        let mut node = node.try_copy(alloc)?;
        put_in_block(alloc, &mut node, number, new)?;
        put_at(&mut after, path, node);
    }
    Ok(after)
}
