// Where a temporary is assigned and read.
ghost use Rattle.std.specs.Prelude.{◌≡◌, IfOk};
ghost use Rattle.st_tree.specs.View.{method_of};
ghost use Rattle.command_model.specs.Asked.{no_parts};
ghost use Rattle.command_model.specs.Numbers.{number_asked};
ghost use Rattle.command_model.specs.Places.{temporary_scope};
ghost use Rattle.command_model.specs.Temporaries as model;
ghost use Rattle.let_code.specs.Uses.{as_placed, assigned_scope, is_read};

use placed_nodes::{PlacedNode, placed_nodes};
use rb_base::{Memory, NameId, Names};
use st_scope::{Local, local_at};
use st_tree::{Method, Node, NodeKind, Path};
use std::alloc::Global;

/// How many steps lead to the scope where a temporary is declared; `None` of anything else.
fn temporary_scope(local: Local) -> Option<usize>
    ensures { result ≡ temporary_scope local }
{
    match local {
        Local::Temporary { scope } => Some(scope),
        Local::Argument { .. } | Local::NotLocal => None,
    }
}

/// How many steps lead to the scope of the temporary of a name that the node assigns, if it assigns one.
pub(crate) fn assigned_scope(
    names: &Names,
    method: &Method,
    variable: NameId,
    placed: &PlacedNode<'_>,
) -> Option<usize>
    ensures { result ≡ assigned_scope names.now (method_of method.now) variable (as_placed placed.now) }
{
    let node = placed.node;
    match &node.kind {
        NodeKind::Assign { name, .. } => {
            if variable != *name {
                return None;
            }
            temporary_scope(local_at(method, &placed.path, *name, names))
        }
        _ => None,
    }
}

/// Whether the node at the end of a path reads the temporary of a name.
pub(crate) fn is_read(
    names: &Names,
    method: &Method,
    variable: NameId,
    path: &Path,
    node: &Node,
) -> bool
    ensures { result ≡ is_read names.now (method_of method.now) variable (path.now, node.now) }
{
    match &node.kind {
        NodeKind::Var { name } => {
            variable == *name && temporary_scope(local_at(method, path, *name, names)).is_some()
        }
        _ => false,
    }
}

/// The paths of the nodes that read a temporary, in the order of the text. Want of memory, if there is not enough of it for the
/// list.
pub fn reads_of(
    alloc: Global,
    names: &Names,
    method: &Method,
    variable: NameId,
) -> Result<Vec<Path>, Memory>
    ensures { IfOk result (λ found. found.items ≡ model.reads_of (number_asked names.now 0 no_parts) (method_of method.now) variable) }
{
    let nodes = placed_nodes(alloc, &method.body)?;
    let mut found = Vec::new(alloc);
    for placed in nodes.as_slice() {
        if is_read(names, method, variable, &placed.path, placed.node) {
            found.push(placed.path.try_copy(alloc)?)?;
        }
    }
    Ok(found)
}
