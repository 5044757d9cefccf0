// What code demands: the classes that it means, and the selectors that it sends.
ghost use Rattle.std.specs.Prelude.{◌≡◌, ◌++◌, nat_eq, IfOk, OnOk};
ghost use Rattle.scope_model.specs.FreeNames.{free_names_of_run};
ghost use Rattle.scope_model.specs.NameTests.{is_pseudo_in};
ghost use Rattle.st_tree.specs.View.{messages_of, sequence_of, statements_of};
ghost use Rattle.name_meanings.specs.Meanings.{meaning_of};
ghost use Rattle.strip_model.specs.Reach.{messages_sent, node_sends, class_meant};
ghost use Rattle.class_table.specs.Valid.{IsLive, IsOrderly};
ghost use Rattle.image_strip.specs.Code.{method_at, doit_at, sent_in, AreMeant};

use class_table::{ClassId, Image};
use mentions::nodes_of;
use name_meanings::{Meaning, doit_meaning, method_meaning};
use rb_base::{Ids, Memory, Names};
use st_scope::free_names_doit;
use st_tree::{Message, Method, Node, NodeKind, Part, Path, Sequence};
use std::alloc::Global;

/// The free names of a body, each once.
fn free_names(alloc: Global, names: &Names, body: &Sequence) -> Result<Ids, Memory>
    ensures { IfOk result (λ free. free ≡ free_names_of_run nat_eq (is_pseudo_in names.now) (statements_of body.now.statements)) }
{
    let whole = Part::Run {
        path: Path::new(alloc),
        first: 0,
        count: body.statements.len(),
    };
    let mut free = Ids::new(alloc);
    free_names_doit(alloc, body, &whole, names, &mut free)?;
    Ok(free)
}

/// Puts the class at the end that is meant, if one is.
fn put_meant(meaning: Meaning, classes: &mut Ids) -> Result<(), Memory>
    ensures { OnOk result (classes.new ≡ classes.old ++ class_meant (meaning_of meaning)) }
{
    match meaning {
        Meaning::Class(class) => classes.push(class),
        _ => Ok(()),
    }
}

/// The names of the classes that a method of a live class and a side means.
pub(crate) fn method_classes(
    alloc: Global,
    image: &Image,
    class: ClassId,
    meta: bool,
    tree: &Method,
) -> Result<Ids, Memory>
    requires orderly { IsOrderly image.now }
    requires live { IsLive image.now.class_order class }
    ensures { IfOk result (AreMeant (method_at image.now class meta tree.now)) }
{
    let free = free_names(alloc, image.names(), &tree.body)?;
    let mut classes = Ids::new(alloc);
    for name in free.as_slice() {
        let meaning = method_meaning(image, class, meta, tree, &Path::new(alloc), *name);
        put_meant(meaning, &mut classes)?;
    }
    Ok(classes)
}

/// The names of the classes that a do-it means.
pub(crate) fn doit_classes(alloc: Global, image: &Image, body: &Sequence) -> Result<Ids, Memory>
    requires { IsOrderly image.now }
    ensures { IfOk result (AreMeant (doit_at image.now body.now)) }
{
    let free = free_names(alloc, image.names(), body)?;
    let mut classes = Ids::new(alloc);
    for name in free.as_slice() {
        let meaning = doit_meaning(image, body, &Path::new(alloc), *name);
        put_meant(meaning, &mut classes)?;
    }
    Ok(classes)
}

/// Puts the selectors of messages at the end.
fn put_selectors(messages: &[Message], selectors: &mut Ids) -> Result<(), Memory>
    ensures { OnOk result (selectors.new ≡ selectors.old ++ messages_sent (messages_of messages.now)) }
{
    for message in messages {
        selectors.push(message.selector)?;
    }
    Ok(())
}

/// Puts the selectors at the end that a node sends.
fn put_sent(node: &Node, selectors: &mut Ids) -> Result<(), Memory>
    ensures { OnOk result (selectors.new ≡ selectors.old ++ node_sends node.now) }
{
    match &node.kind {
        NodeKind::Send { selector, .. } => selectors.push(*selector),
        NodeKind::Cascade { messages, .. } => put_selectors(messages.as_slice(), selectors),
        NodeKind::Var { .. } | NodeKind::Literal { .. } | NodeKind::Assign { .. } => Ok(()),
        NodeKind::Block { .. } | NodeKind::Brace { .. } | NodeKind::Return { .. } => Ok(()),
    }
}

/// The selectors that a body sends, in order.
pub(crate) fn selectors_sent(alloc: Global, body: &Sequence) -> Result<Ids, Memory>
    ensures { IfOk result (λ selectors. selectors ≡ sent_in (sequence_of body.now)) }
{
    let nodes = nodes_of(alloc, body)?;
    let mut selectors = Ids::new(alloc);
    for node in nodes.as_slice() {
        put_sent(*node, &mut selectors)?;
    }
    Ok(selectors)
}
