// Statements that are made one after the other.
ghost use Rattle.std.specs.Prelude.{◌≡◌, IfOk};
ghost use Rattle.filled_patterns.specs.Filling.{state_of, put_one, put_all, with_notes};

use rb_base::Memory;
use st_tree::{Comments, Node, Statement, Statements};
use std::alloc::Global;

/// Statements that are made, and the comments that wait for the next one.
#[derive(Drop)]
pub(crate) struct Made {
    pub(crate) statements: Vec<Statement>,
    pub(crate) waiting: Comments,
}

/// More comments wait for the next statement.
pub(crate) fn noted(alloc: Global, comments: &Comments, made: Made) -> Result<Made, Memory>
    ensures { IfOk result (λ after. state_of after ≡ with_notes (state_of made) comments.now) }
{
    let Made {
        statements,
        waiting,
    } = made;
    let mut all = waiting.into_vec();
    let mut more = comments.try_copy(alloc)?.into_vec();
    all.append(&mut more)?;
    Ok(Made {
        statements,
        waiting: Comments::from_vec(all),
    })
}

/// Puts a statement behind the others; the comments that wait stand in front of its own.
pub(crate) fn put_one(
    alloc: Global,
    comments: &Comments,
    node: Node,
    made: Made,
) -> Result<Made, Memory>
    ensures { IfOk result (λ after. state_of after ≡ put_one (state_of made) comments.now node) }
{
    let Made {
        mut statements,
        waiting: comments,
    } = noted(alloc, comments, made)?;
    statements.push(Statement { comments, node })?;
    Ok(Made {
        statements,
        waiting: Comments::new(alloc),
    })
}

/// Puts statements behind the others.
pub(crate) fn put_all(alloc: Global, run: Statements, made: Made) -> Result<Made, Memory>
    ensures { IfOk result (λ after. state_of after ≡ put_all (state_of made) run) }
{
    let mut all = made;
    for statement in run.into_vec() {
        let Statement { comments, node } = statement;
        all = put_one(alloc, &comments, node, all)?;
    }
    Ok(all)
}
