// The message that stands in place of a part.
ghost use Rattle.std.specs.Prelude.{◌≡◌, ◌++◌, [], map, filter, nat_eq, IfOk, OnOk};
ghost use Rattle.tree_model.specs.Tree.{var, send, trees_of};
ghost use Rattle.scope_model.specs.NameTests.{is_pseudo_in};
ghost use Rattle.scope_model.specs.Scope.{local_in};
ghost use Rattle.st_tree.specs.View.{method_of};
ghost use Rattle.command_model.specs.Asked.{no_parts};
ghost use Rattle.command_model.specs.Numbers.{number_asked};
ghost use Rattle.command_model.specs.Parts as parts;
ghost use Rattle.command_model.specs.Places as places;
ghost use Rattle.command_model.specs.Extracted as model;
ghost use Rattle.part_questions.specs.Parts.{part_of};

use rb_base::{Ids, Memory, NameId, Names};
use st_scope::{Local, free_names, local_at};
use st_tree::{Method, Node, NodeKind, Nodes, Part, Path};
use std::alloc::Global;

/// The path of the first node of the part.
fn beginning(alloc: Global, part: &Part) -> Result<Path, Memory>
    ensures { IfOk result (λ path. path ≡ parts.beginning (part_of part.now)) }
{
    match part {
        Part::Expression { path } => path.try_copy(alloc),
        Part::Run { path, first, .. } => {
            let mut path = path.try_copy(alloc)?;
            path.push(*first)?;
            Ok(path)
        }
    }
}

/// Whether the name is declared in the method.
fn is_local(local: Local) -> bool
    ensures { result ≡ places.is_local local }
{
    match local {
        Local::Argument { .. } | Local::Temporary { .. } => true,
        Local::NotLocal => false,
    }
}

/// Those of the names that are declared in the method, at the place to which the path leads.
fn declared(
    alloc: Global,
    names: &Names,
    method: &Method,
    path: &Path,
    all: &[NameId],
) -> Result<Ids, Memory>
    ensures { IfOk result (λ found. found ≡ filter (λ n. places.is_local (local_in nat_eq (is_pseudo_in names.now) (method_of method.now) path.now n)) all.now) }
{
    let mut found = Ids::new(alloc);
    for name in all {
        if is_local(local_at(method, path, *name, names)) {
            found.push(*name)?;
        }
    }
    Ok(found)
}

/// The names in the part that mean no declaration inside it, but an argument, a parameter or a temporary of the method, each
/// once, in the order of the text. Want of memory, if there is not enough of it for the list.
pub fn free_temporaries(
    alloc: Global,
    names: &Names,
    method: &Method,
    part: &Part,
) -> Result<Ids, Memory>
    ensures { IfOk result (λ found. found ≡ model.free_temporaries (number_asked names.now 0 no_parts) (method_of method.now) (part_of part.now)) }
{
    let path = beginning(alloc, part)?;
    let mut all = Ids::new(alloc);
    free_names(alloc, method, part, names, &mut all)?;
    let found = declared(alloc, names, method, &path, all.as_slice())?;
    Ok(found)
}

/// The names as arguments of a message.
fn as_arguments(alloc: Global, names: &[NameId]) -> Result<Nodes, Memory>
    ensures { IfOk result (λ nodes. nodes ≡ map (λ n. var n) names.now) }
{
    let mut nodes = Nodes::new(alloc);
    for name in names {
        nodes.push(Node {
            kind: NodeKind::Var { name: *name },
        })?;
    }
    Ok(nodes)
}

/// The message to `self` that has the names as its arguments.
pub(crate) fn call(
    alloc: Global,
    self_name: NameId,
    selector: NameId,
    passed: &[NameId],
) -> Result<Node, Memory>
    ensures { IfOk result (λ call. call ≡ send (var self_name) selector (trees_of (map (λ n. var n) passed.now))) }
{
    let receiver = Node {
        kind: NodeKind::Var { name: self_name },
    };
    let kind = NodeKind::Send {
        receiver: Box::new(alloc, receiver)?,
        selector,
        arguments: as_arguments(alloc, passed)?,
    };
    Ok(Node { kind })
}
