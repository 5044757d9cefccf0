// What may be wrong with a node of a part that is taken out.
ghost use Rattle.std.specs.Prelude.{◌≡◌, IfOk};
ghost use Rattle.std.specs.List.{list_any};
ghost use Rattle.placed_nodes.specs.Placing.{placed};
ghost use Rattle.command_model.specs.Parts as parts;
ghost use Rattle.command_model.specs.Places as places;
ghost use Rattle.part_questions.specs.Parts.{part_of};
ghost use Rattle.part_questions.specs.Faults.{is_declared_outside, is_steady, is_at_fault, is_faulty};

use crate::places::{is_assigned_in_the_open, stands_in_closure};
use placed_nodes::{PlacedNode, placed_nodes};
use rb_base::{Memory, NameId, Names};
use st_scope::{Local, local_at};
use st_tree::{Method, Node, NodeKind, Part, Path};
use std::alloc::Global;

/// What may be wrong with a node of a part.
#[derive(Clone, Copy)]
pub enum Fault {
    /// It is a return.
    Return,
    /// It assigns what is declared outside the part.
    AssignsOuter,
    /// It names a temporary that closures outside or inside the part may change.
    Unsteady,
}

/// A part of a method, and the table of the names.
#[derive(Clone, Copy)]
pub struct Asked<'a> {
    pub names: &'a Names,
    pub method: &'a Method,
    pub part: &'a Part,
}

/// Whether the node is a return.
pub fn is_return(node: &Node) -> bool
    ensures { result ≡ places.is_return node.now }
{
    match &node.kind {
        NodeKind::Return { .. } => true,
        _ => false,
    }
}

/// Whether the path leads into the part.
fn is_within(part: &Part, path: &Path) -> bool
    ensures { result ≡ parts.is_within (part_of part.now) path.now }
{
    let steps = path.as_slice();
    match part {
        Part::Expression { path } => steps.starts_with(path.as_slice()),
        Part::Run { path, first, count } => {
            steps.starts_with(path.as_slice())
                && match steps.get(path.len()) {
                    Some(step) => *first <= *step && *step - *first < *count,
                    None => false,
                }
        }
    }
}

/// How many steps lead at least to a scope inside the part.
fn inside_from(part: &Part) -> usize
    ensures { result ≡ parts.inside_from (part_of part.now) }
{
    match part {
        Part::Expression { path } => path.len(),
        Part::Run { path, .. } => path.as_slice().len() + 1,
    }
}

/// Whether the name is declared in a scope to which fewer steps lead.
fn is_declared_outside(inside: usize, local: Local) -> bool
    ensures { result ≡ is_declared_outside inside local }
{
    match local {
        Local::Argument { scope } | Local::Temporary { scope } => scope < inside,
        Local::NotLocal => false,
    }
}

/// Whether the name at the place, if it is a temporary, is declared inside the part; or no closure assigns it, and if it is
/// read there, that is in no closure of the part.
fn is_steady(
    alloc: Global,
    asked: &Asked<'_>,
    path: &Path,
    name: NameId,
    is_read: bool,
) -> Result<bool, Memory>
    ensures { IfOk result (λ is. is ≡ is_steady asked.now path.now name is_read) }
{
    let inside = inside_from(asked.part);
    match local_at(asked.method, path, name, asked.names) {
        Local::Temporary { scope } => {
            if inside <= scope {
                return Ok(true);
            }
            if is_read && stands_in_closure(asked.names, asked.method, inside, path) {
                return Ok(false);
            }
            is_assigned_in_the_open(alloc, asked.names, asked.method, path, scope, name)
        }
        Local::Argument { .. } | Local::NotLocal => Ok(true),
    }
}

/// Whether the node is one of the part and has the fault. Want of memory, if there is not enough of it for a path.
pub fn has_fault(
    alloc: Global,
    asked: &Asked<'_>,
    fault: Fault,
    found: &PlacedNode<'_>,
) -> Result<bool, Memory>
    ensures { IfOk result (λ has. has ≡ is_at_fault asked.now fault (found.now.path, found.now.node.now)) }
{
    if !is_within(asked.part, &found.path) {
        return Ok(false);
    }
    let node = found.node;
    match fault {
        Fault::Return => Ok(is_return(node)),
        Fault::AssignsOuter => match &node.kind {
            NodeKind::Assign { name, .. } => Ok(is_declared_outside(
                inside_from(asked.part),
                local_at(asked.method, &found.path, *name, asked.names),
            )),
            _ => Ok(false),
        },
        Fault::Unsteady => match &node.kind {
            NodeKind::Var { name } => Ok(!is_steady(alloc, asked, &found.path, *name, true)?),
            NodeKind::Assign { name, .. } => {
                Ok(!is_steady(alloc, asked, &found.path, *name, false)?)
            }
            _ => Ok(false),
        },
    }
}

/// Whether one of the nodes is one of the part and has the fault.
fn is_any_at_fault(
    alloc: Global,
    asked: &Asked<'_>,
    fault: Fault,
    nodes: &[PlacedNode<'_>],
) -> Result<bool, Memory>
    ensures { IfOk result (λ is. is ≡ list_any (is_at_fault asked.now fault) (placed nodes.now)) }
{
    for node in nodes {
        if has_fault(alloc, asked, fault, node)? {
            return Ok(true);
        }
    }
    Ok(false)
}

/// Whether a node of the part has the fault. Want of memory, if there is not enough of it to look.
pub(crate) fn is_faulty(alloc: Global, asked: &Asked<'_>, fault: Fault) -> Result<bool, Memory>
    ensures { IfOk result (λ is. is ≡ is_faulty asked.now fault) }
{
    let nodes = placed_nodes(alloc, &asked.method.body)?;
    let found = is_any_at_fault(alloc, asked, fault, nodes.as_slice())?;
    Ok(found)
}
