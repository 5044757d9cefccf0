// Statements in place of others.
ghost use Rattle.std.specs.Prelude.{◌≡◌, ◌++◌, ◌≤◌, length, take, drop, IfOk, OnOk};
ghost use Rattle.scope_model.specs.FreeNames as free;
ghost use Rattle.st_tree.specs.View.{statements_of, sequence_of, method_of};
ghost use Rattle.command_model.specs.Extracted as model;
ghost use Rattle.command_model.specs.Sequences.{single, joined, block_changed, put_in};
ghost use Rattle.part_questions.specs.Parts.{part_of};

use part_questions::statements_at;
use rb_base::Memory;
use st_tree::{Comments, Method, Node, NodeKind, Part, Statement, Statements, part_at};
use std::alloc::Global;

/// Puts copies of the statements at the end.
fn put_copies(alloc: Global, statements: &[Statement], out: &mut Statements) -> Result<(), Memory>
    ensures { OnOk result (out.new ≡ out.old ++ statements.now) }
{
    for statement in statements {
        out.push(Statement {
            comments: statement.comments.try_copy(alloc)?,
            node: statement.node.try_copy(alloc)?,
        })?;
    }
    Ok(())
}

/// The statements from a number on.
#[tactic(auto, using(st_scope::proofs::Runs::run_lemmas))]
fn from_number(statements: &[Statement], first: usize) -> &[Statement]
    ensures { statements_of result.now ≡ free.drop_statements first (statements_of statements.now) }
{
    if first < statements.len() {
        &statements[first..]
    } else {
        &[]
    }
}

/// The first so many statements.
#[tactic(auto, using(st_scope::proofs::Runs::run_lemmas))]
fn up_to(statements: &[Statement], count: usize) -> &[Statement]
    ensures { statements_of result.now ≡ free.take_statements count (statements_of statements.now) }
{
    if count < statements.len() {
        &statements[..count]
    } else {
        statements
    }
}

/// Puts the node at the end, a statement without comments.
#[tactic(auto, using(crate::proofs::Joined::joined_lemmas))]
fn put_single(alloc: Global, node: Node, out: &mut Statements) -> Result<(), Memory>
    ensures { OnOk result (statements_of out.new ≡ joined (statements_of out.old) (single node)) }
{
    out.push(Statement {
        comments: Comments::new(alloc),
        node,
    })
}

/// The statements with one, without comments, in place of so many from a number on.
#[tactic(auto, using(crate::proofs::Joined::joined_lemmas))]
pub(crate) fn put_in(
    alloc: Global,
    statements: &[Statement],
    first: usize,
    count: usize,
    node: Node,
) -> Result<Statements, Memory>
    ensures { IfOk result (λ after. statements_of after ≡ joined (free.take_statements first (statements_of statements.now)) (joined (single node) (free.drop_statements count (free.drop_statements first (statements_of statements.now))))) }
{
    let mut out = Statements::new(alloc);
    put_copies(alloc, up_to(statements, first), &mut out)?;
    put_single(alloc, node, &mut out)?;
    let rest = from_number(from_number(statements, first), count);
    put_copies(alloc, rest, &mut out)?;
    Ok(out)
}

/// The statements that the part becomes: copies of its own, or one that answers the expression.
pub(crate) fn statements_of_part(
    alloc: Global,
    method: &Method,
    part: &Part,
) -> Result<Statements, Memory>
    ensures { IfOk result (λ made. statements_of made ≡ model.statements_of_part (method_of method.now) (part_of part.now)) }
{
    match part {
        Part::Expression { path } => match part_at(method, path) {
            None => Ok(Statements::new(alloc)),
            Some(node) => {
                let value = Box::new(alloc, node.try_copy(alloc)?)?;
                let kind = NodeKind::Return { value };
                let mut out = Statements::new(alloc);
                put_single(alloc, Node { kind }, &mut out)?;
                Ok(out)
            }
        },
        Part::Run { path, first, count } => {
            let run = up_to(from_number(statements_at(method, path), *first), *count);
            let mut out = Statements::new(alloc);
            put_copies(alloc, run, &mut out)?;
            Ok(out)
        }
    }
}
