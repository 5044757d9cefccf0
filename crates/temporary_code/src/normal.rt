// The normal form of comments, and methods that are the same but for comments.
ghost use Rattle.std.specs.Prelude.{◌≡◌, nat_eq, IfOk};
ghost use Rattle.tree_model.specs.Normal.{leading, without_leading, normal};
ghost use Rattle.same_trees.specs.SameTrees.{same_code};
ghost use Rattle.st_tree.specs.View.{sequence_of, method_of};
ghost use Rattle.temporary_code.specs.Block.{as_block};

use rb_base::Memory;
use st_tree::{Comments, Method, Node, NodeKind, Sequence, Statements, same, try_copy};
use std::alloc::Global;
use std::mem::replace;

/// A sequence without its first comments, and these.
struct Bared {
    body: Sequence,
    first: Comments,
}

/// Takes the first comments out of a sequence: those of its first statement, or those at its end where it has none.
fn take_first(alloc: Global, body: Sequence) -> Bared
    ensures body { sequence_of result.body ≡ without_leading (sequence_of body) }
    ensures first { result.first ≡ leading (sequence_of body) }
{
    let Sequence {
        temporaries,
        statements,
        mut tail,
    } = body;
    let mut items = statements.into_vec();
    let none = Comments::new(alloc);
    let first = if items.is_empty() {
        replace(&mut tail, none)
    } else {
        replace(&mut items[0].comments, none)
    };
    let statements = Statements::from_vec(items);
    Bared {
        body: Sequence {
            temporaries,
            statements,
            tail,
        },
        first,
    }
}

/// The method with its comments in normal form: the first ones of a body without temporaries stand at the end of the head. Want
/// of memory, if there is not enough of it for a longer head.
pub fn normalized(alloc: Global, method: Method) -> Result<Method, Memory>
    ensures { IfOk result (λ after. method_of after ≡ normal (method_of method)) }
{
    if !method.body.temporaries.is_empty() {
        return Ok(method);
    }
    let Method {
        selector,
        arguments,
        head,
        primitive,
        body,
    } = method;
    let Bared { body, first } = take_first(alloc, body);
    let mut head = head.into_vec();
    head.append(&mut first.into_vec())?;
    Ok(Method {
        selector,
        arguments,
        head: Comments::from_vec(head),
        primitive,
        body,
    })
}

/// A block with the arguments and the body of the method.
fn as_block(alloc: Global, method: &Method) -> Result<Node, Memory>
    ensures { IfOk result (λ block. block ≡ as_block (method_of method.now)) }
{
    let Method {
        arguments,
        body,
        ..
    } = try_copy(alloc, method)?;
    let kind = NodeKind::Block {
        parameters: arguments,
        body: Box::new(alloc, body)?,
    };
    Ok(Node { kind })
}

/// Whether the methods are the same but for comments, with their primitives.
pub fn same_code(alloc: Global, method: &Method, other: &Method) -> Result<bool, Memory>
    ensures { IfOk result (λ is. is ≡ same_code nat_eq (method_of method.now) (method_of other.now)) }
{
    let one = as_block(alloc, method)?;
    let another = as_block(alloc, other)?;
    let blocks = same(&one, &another);
    Ok(method.selector == other.selector && method.primitive == other.primitive && blocks)
}
