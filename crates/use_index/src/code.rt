// The uses in the code of a method or a do-it.
ghost use Rattle.std.specs.Prelude.{◌≡◌, [], ◌∷◌, ◌++◌, nat_eq, if◌then◌else◌, IfOk, OnOk};
ghost use Rattle.std.specs.List.{flat_map, list_any};
ghost use Rattle.tree_model.specs.Nodes.{Placed};
ghost use Rattle.st_tree.specs.View.{messages_of, method_of, sequence_of};
ghost use Rattle.mentions.specs.Mentions.{selectors_of};
ghost use Rattle.placed_nodes.specs.Placing.{placed};
ghost use Rattle.use_index.specs.Uses.{use_at, uses_of, named, node_uses, code_uses, method_uses, doit_uses};
ghost use Rattle.use_index.specs.Code.{bound_in};

use crate::uses::{UseAt, Uses, Way};
use name_meanings::is_among;
use placed_nodes::{PlacedNode, placed_nodes};
use rb_base::{Ids, Memory, NameId, Names};
use scope_model::Local;
use st_scope::{local_at, local_at_doit};
use st_tree::{Message, Method, Node, NodeKind, Path, Sequence};
use std::alloc::Global;

/// Code in which names are declared.
#[derive(Clone, Copy)]
pub enum Code<'a> {
    Method(&'a Method),
    DoIt(&'a Sequence),
}

/// Whether the code declares what the name stands for at a path.
fn is_bound(code: Code<'_>, names: &Names, path: &Path, name: NameId) -> bool
    ensures { result ≡ bound_in names.now code.entry path.now name }
{
    let local = match code {
        Code::Method(method) => local_at(method, path, name, names),
        Code::DoIt(body) => local_at_doit(body, path, name, names),
    };
    match local {
        Local::NotLocal => false,
        Local::Argument { .. } | Local::Temporary { .. } => true,
    }
}

/// Puts a use at the end.
fn put(alloc: Global, name: NameId, way: Way, path: &Path, uses: &mut Uses) -> Result<(), Memory>
    ensures { OnOk result (uses.new ≡ uses.old ++ use_at way path.now name ∷ []) }
{
    let path = path.try_copy(alloc)?;
    uses.push(UseAt { name, way, path })
}

/// Puts a use of the name at the end, if it is none of those before it.
fn put_new(
    alloc: Global,
    before: &[NameId],
    name: NameId,
    way: Way,
    path: &Path,
    uses: &mut Uses,
) -> Result<(), Memory>
    ensures { OnOk result (uses.new ≡ uses.old ++ (if list_any (nat_eq name) before.now then [] else use_at way path.now name ∷ [])) }
{
    if is_among(before, name) {
        return Ok(());
    }
    put(alloc, name, way, path, uses)
}

/// Puts a use of each of the names at the end, where it stands first.
fn put_once(
    alloc: Global,
    names: &[NameId],
    way: Way,
    path: &Path,
    uses: &mut Uses,
) -> Result<(), Memory>
    ensures { OnOk result (uses.new ≡ uses.old ++ uses_of way path.now names.now) }
{
    let mut seen = Ids::new(alloc);
    for name in names {
        put_new(alloc, seen.as_slice(), *name, way, path, uses)?;
        seen.push(*name)?;
    }
    Ok(())
}

/// Puts names at the end.
fn put_names(more: &[NameId], names: &mut Ids) -> Result<(), Memory>
    ensures { OnOk result (names.new ≡ names.old ++ more.now) }
{
    for name in more {
        names.push(*name)?;
    }
    Ok(())
}

/// The names of two lists.
fn both(alloc: Global, first: &Ids, second: &Ids) -> Result<Ids, Memory>
    ensures { IfOk result (λ names. names ≡ first.now ++ second.now) }
{
    let mut names = Ids::new(alloc);
    put_names(first.as_slice(), &mut names)?;
    put_names(second.as_slice(), &mut names)?;
    Ok(names)
}

/// The selectors of messages.
fn selectors(alloc: Global, messages: &[Message]) -> Result<Ids, Memory>
    ensures { IfOk result (λ found. found ≡ selectors_of (messages_of messages.now)) }
{
    let mut found = Ids::new(alloc);
    for message in messages {
        found.push(message.selector)?;
    }
    Ok(found)
}

/// Puts the use of a name that a node reads or assigns at the end.
fn put_named(
    alloc: Global,
    code: Code<'_>,
    names: &Names,
    name: NameId,
    path: &Path,
    uses: &mut Uses,
) -> Result<(), Memory>
    ensures { OnOk result (uses.new ≡ uses.old ++ named (bound_in names.now code.entry) path.now name ∷ []) }
{
    let way = if is_bound(code, names, path, name) {
        Way::Bound
    } else {
        Way::Free
    };
    put(alloc, name, way, path, uses)
}

/// Puts the uses at a node itself at the end.
fn put_node(
    alloc: Global,
    code: Code<'_>,
    names: &Names,
    node: &Node,
    path: &Path,
    uses: &mut Uses,
) -> Result<(), Memory>
    ensures { OnOk result (uses.new ≡ uses.old ++ node_uses (bound_in names.now code.entry) path.now node.now) }
{
    match &node.kind {
        NodeKind::Var { name } | NodeKind::Assign { name, .. } => {
            put_named(alloc, code, names, *name, path, uses)
        }
        NodeKind::Send { selector, .. } => put(alloc, *selector, Way::Sent, path, uses),
        NodeKind::Cascade { messages, .. } => {
            let sent = selectors(alloc, messages.as_slice())?;
            put_once(alloc, sent.as_slice(), Way::Sent, path, uses)
        }
        NodeKind::Block { parameters, body } => {
            let declared = both(alloc, parameters, &body.temporaries)?;
            put_once(alloc, declared.as_slice(), Way::Declared, path, uses)
        }
        NodeKind::Literal { .. } | NodeKind::Brace { .. } | NodeKind::Return { .. } => Ok(()),
    }
}

/// The same for nodes in order.
fn put_nodes(
    alloc: Global,
    code: Code<'_>,
    names: &Names,
    nodes: &[PlacedNode<'_>],
    uses: &mut Uses,
) -> Result<(), Memory>
    ensures { OnOk result (uses.new ≡ uses.old ++ flat_map (λ (e : Placed _). node_uses (bound_in names.now code.entry) e.0 e.1) (placed nodes.now)) }
{
    for node in nodes {
        put_node(alloc, code, names, node.node, &node.path, uses)?;
    }
    Ok(())
}

/// Puts the uses at the nodes of a body at the end.
fn put_body(
    alloc: Global,
    code: Code<'_>,
    names: &Names,
    body: &Sequence,
    uses: &mut Uses,
) -> Result<(), Memory>
    ensures { OnOk result (uses.new ≡ uses.old ++ code_uses (bound_in names.now code.entry) (sequence_of body.now)) }
{
    let nodes = placed_nodes(alloc, body)?;
    put_nodes(alloc, code, names, nodes.as_slice(), uses)
}

/// The uses in a method.
pub fn method_uses(alloc: Global, names: &Names, method: &Method) -> Result<Uses, Memory>
    ensures { IfOk result (λ uses. uses ≡ method_uses names.now (method_of method.now)) }
{
    let mut uses = Uses::new(alloc);
    let top = Path::new(alloc);
    put(alloc, method.selector, Way::Implemented, &top, &mut uses)?;
    let declared = both(alloc, &method.arguments, &method.body.temporaries)?;
    put_once(alloc, declared.as_slice(), Way::Declared, &top, &mut uses)?;
    put_body(alloc, Code::Method(method), names, &method.body, &mut uses)?;
    Ok(uses)
}

/// The uses in a do-it.
pub fn doit_uses(alloc: Global, names: &Names, body: &Sequence) -> Result<Uses, Memory>
    ensures { IfOk result (λ uses. uses ≡ doit_uses names.now (sequence_of body.now)) }
{
    let mut uses = Uses::new(alloc);
    let top = Path::new(alloc);
    put_once(
        alloc,
        body.temporaries.as_slice(),
        Way::Declared,
        &top,
        &mut uses,
    )?;
    put_body(alloc, Code::DoIt(body), names, body, &mut uses)?;
    Ok(uses)
}
