// The one assignment to a temporary.
ghost use Rattle.std.specs.Prelude.{◌≡◌, ◌<◌, length, map, filter, option_map, IfOk};
ghost use Rattle.std.specs.Option.{ForSome, option_copied};
ghost use Rattle.tree_model.specs.AllNames.{AllNames, MethodNames};
ghost use Rattle.st_tree.specs.View.{method_of};
ghost use Rattle.command_model.specs.Asked.{no_parts};
ghost use Rattle.command_model.specs.Numbers.{number_asked};
ghost use Rattle.command_model.specs.Temporaries as model;
ghost use Rattle.let_code.specs.declared.assignment.Let.{Let};
ghost use Rattle.let_code.specs.Lets.{let_as};
ghost use Rattle.let_code.specs.Uses.{as_placed, is_assigned, let_at};

use crate::uses::assigned_scope;
use parameter_questions::declares_once;
use placed_nodes::{PlacedNode, placed_nodes};
use rb_base::{Memory, NameId, Names};
use st_tree::{Method, Node, NodeKind, Path};
use std::alloc::Global;

/// An assignment to a temporary that is a whole statement of the sequence that declares it.
#[derive(Drop)]
pub struct Let<'m> {
    /// The path of the sequence: the empty one leads to the body, any other to a block.
    pub sequence: Path,
    /// The number of the statement, from 0.
    pub number: usize,
    /// What is assigned.
    pub value: &'m Node,
}

/// The one of the nodes that assigns the temporary of a name; `None` where there is none, or another one.
fn only_assigned<'f, 'm>(
    names: &Names,
    method: &Method,
    variable: NameId,
    nodes: &'f [PlacedNode<'m>],
) -> Option<&'f PlacedNode<'m>>
    ensures { option_map as_placed (option_copied result) ≡ model.only (filter (is_assigned names.now (method_of method.now) variable) (map as_placed nodes.now)) }
{
    let mut found = None;
    for placed in nodes {
        if assigned_scope(names, method, variable, placed).is_some() {
            if found.is_some() {
                return None;
            }
            found = Some(placed);
        }
    }
    found
}

/// The node as an assignment that is a statement of the sequence to which `scope` steps lead, if it is one.
fn let_at<'m>(
    alloc: Global,
    placed: &PlacedNode<'m>,
    scope: usize,
) -> Result<Option<Let<'m>>, Memory>
    ensures { IfOk result (λ found. option_map let_as found ≡ let_at (as_placed placed.now) scope) }
{
    let node = placed.node;
    let NodeKind::Assign { value, .. } = &node.kind else {
        return Ok(None);
    };
    let Some((last, before)) = placed.path.as_slice().split_last() else {
        return Ok(None);
    };
    if before.len() != scope {
        return Ok(None);
    }
    Ok(Some(Let {
        sequence: Path::from_vec(Vec::from_slice(alloc, before)?),
        number: *last,
        value,
    }))
}

/// The one assignment to a temporary that just one place of the method declares, if it is a whole statement of the sequence
/// that declares the temporary. Want of memory, if there is not enough of it to look.
pub fn let_of<'m>(
    alloc: Global,
    names: &Names,
    method: &'m Method,
    variable: NameId,
) -> Result<Option<Let<'m>>, Memory>
    ensures found { IfOk result (λ found. option_map let_as found ≡ model.let_of (number_asked names.now 0 no_parts) (method_of method.now) variable) }
    ensures known { IfOk result (λ found. MethodNames (λ n. n < length names.now) (method_of method.now) → ForSome found (λ (e : Let). AllNames (λ n. n < length names.now) e.value.now)) }
{
    if !declares_once(alloc, method, variable)? {
        return Ok(None);
    }
    let nodes = placed_nodes(alloc, &method.body)?;
    let Some(placed) = only_assigned(names, method, variable, nodes.as_slice()) else {
        return Ok(None);
    };
    match assigned_scope(names, method, variable, placed) {
        None => Ok(None),
        Some(scope) => let_at(alloc, placed, scope),
    }
}
