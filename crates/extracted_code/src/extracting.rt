// A part of a method made a method of its own.
ghost use Rattle.std.specs.Prelude.{◌≡◌, [], None, IfOk};
ghost use Rattle.tree_model.specs.Normal.{normal};
ghost use Rattle.st_tree.specs.View.{method_of};
ghost use Rattle.command_model.specs.Asked.{no_parts};
ghost use Rattle.command_model.specs.Numbers.{number_asked};
ghost use Rattle.command_model.specs.Extracted as model;
ghost use Rattle.command_model.specs.Sequences.{single, block_changed, put_in};
ghost use Rattle.part_questions.specs.Parts.{part_of};

use crate::call::{call, free_temporaries};
use crate::statements::{put_in, statements_of_part};
use rb_base::{Ids, Memory, NameId, Names};
use st_tree::{Comments, Method, Node, NodeKind, Part, Path, Sequence, part_at, try_copy};
use std::alloc::Global;
use temporary_code::normalized;
use tree_lending::put_at;

/// The two methods that a method becomes.
#[derive(Drop)]
pub struct Extracted {
    /// The method with a message in place of the part.
    pub sender: Method,
    /// The method that the part becomes.
    pub method: Method,
}

/// The node with one statement in place of so many from a number on, if it is a block; any other node stays.
fn block_changed(
    alloc: Global,
    node: &Node,
    first: usize,
    count: usize,
    new: Node,
) -> Result<Node, Memory>
    ensures { IfOk result (λ after. after ≡ block_changed (put_in first count (single new)) node.now) }
{
    let mut after = node.try_copy(alloc)?;
    if let NodeKind::Block { body, .. } = &mut after.kind {
        let statements = put_in(alloc, body.statements.as_slice(), first, count, new)?;
        body.statements = statements;
    }
    Ok(after)
}

/// The method with a node in place of the part; a statement in place of others has no comments.
fn part_replaced(alloc: Global, method: &Method, part: &Part, new: Node) -> Result<Method, Memory>
    ensures { IfOk result (λ after. method_of after ≡ model.part_replaced (method_of method.now) (part_of part.now) new) }
{
    let mut after = try_copy(alloc, method)?;
    match part {
        Part::Expression { path } => {
            put_at(&mut after, path, new);
            Ok(after)
        }
        Part::Run { path, first, count } => {
            if path.len() == 0 {
                let statements = method.body.statements.as_slice();
                after.body.statements = put_in(alloc, statements, *first, *count, new)?;
                return Ok(after);
            }
            match part_at(method, path) {
                None => Ok(after),
                Some(node) => {
                    let block = block_changed(alloc, node, *first, *count, new)?;
                    put_at(&mut after, path, block);
                    Ok(after)
                }
            }
        }
    }
}

/// The method of a selector that the part becomes.
fn method_of_part(
    alloc: Global,
    method: &Method,
    part: &Part,
    selector: NameId,
    arguments: Ids,
) -> Result<Method, Memory>
    ensures { IfOk result (λ made. method_of made ≡ normal (record { selector = selector; arguments = arguments; head = []; primitive = None; body = record { temporaries = []; statements = model.statements_of_part (method_of method.now) (part_of part.now); tail = [] } })) }
{
    let body = Sequence {
        temporaries: Ids::new(alloc),
        statements: statements_of_part(alloc, method, part)?,
        tail: Comments::new(alloc),
    };
    normalized(
        alloc,
        Method {
            selector,
            arguments,
            head: Comments::new(alloc),
            primitive: None,
            body,
        },
    )
}

/// The method with a message to `self`, whose name is `self_name`, in place of the part, and the method of the selector that
/// the part becomes, both with their comments in normal form. Want of memory, if there is not enough of it for them.
pub fn extract(
    alloc: Global,
    names: &Names,
    self_name: NameId,
    method: &Method,
    part: &Part,
    selector: NameId,
) -> Result<Extracted, Memory>
    ensures sender { IfOk result (λ made. let asked = number_asked names.now self_name no_parts in method_of made.sender ≡ normal (model.part_replaced (method_of method.now) (part_of part.now) (model.call_of asked selector (method_of method.now) (part_of part.now)))) }
    ensures method { IfOk result (λ made. method_of made.method ≡ model.method_of (number_asked names.now self_name no_parts) selector (method_of method.now) (part_of part.now)) }
{
    let arguments = free_temporaries(alloc, names, method, part)?;
    let message = call(alloc, self_name, selector, arguments.as_slice())?;
    let sender = normalized(alloc, part_replaced(alloc, method, part, message)?)?;
    let method = method_of_part(alloc, method, part, selector, arguments)?;
    Ok(Extracted { sender, method })
}
