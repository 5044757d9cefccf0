// Whether `super` stands in a method.
ghost use Rattle.std.specs.Prelude.{◌≡◌, IfOk};
ghost use Rattle.std.specs.List.{list_any};
ghost use Rattle.rb_base.specs.Names.{text_eq};
ghost use Rattle.tree_model.specs.Nodes.{nodes};
ghost use Rattle.st_tree.specs.View.{method_of};
ghost use Rattle.class_table.specs.Valid.{IsOrderly};
ghost use Rattle.class_table.specs.View.{number_image};
ghost use Rattle.image_model.specs.Words.{number_words};
ghost use Rattle.command_model.specs.MethodConditions as model;
ghost use Rattle.command_model.specs.SameMethods.{is_super_node};
ghost use Rattle.mentions.specs.Listing.{pointed};
ghost use Rattle.commands.specs.Views.{asked_by};
ghost use Rattle.method_questions.specs.Supers.{is_sought};

use crate::found::opened_named;
use class_table::Image;
use commands::MethodName;
use mentions::nodes_of;
use node_questions::sends;
use rb_base::{Memory, NameId, Names, Steps};
use st_tree::{Method, Node, NodeKind};
use std::alloc::Global;
use std::sync::ledger::Ledger;

/// What is sought in a method.
#[derive(Clone, Copy)]
pub(crate) enum Sought {
    /// The name `super`.
    Super,
    /// A message to `super` with the selector.
    SentToSuper(NameId),
}

fn same_text(a: &[u8], b: &[u8]) -> bool
    ensures { result ≡ text_eq a.now b.now }
{
    a == b
}

/// Whether the node is `super`.
pub(crate) fn is_super_node(names: &Names, node: &Node) -> bool
    ensures { result ≡ is_super_node (asked_by names.now).is_super node.now }
{
    match &node.kind {
        NodeKind::Var { name } => {
            name.0 < names.len() && same_text(b"super", names.text_of(*name))
        }
        _ => false,
    }
}

/// Whether the node is what is sought.
fn is_sought(names: &Names, node: &Node, sought: &Sought) -> bool
    ensures { result ≡ is_sought (asked_by names.now).is_super sought.now node.now }
{
    match *sought {
        Sought::Super => is_super_node(names, node),
        Sought::SentToSuper(selector) => match &node.kind {
            NodeKind::Send { receiver, .. } | NodeKind::Cascade { receiver, .. } => {
                is_super_node(names, receiver) && sends(node, selector)
            }
            _ => false,
        },
    }
}

/// Whether one of the nodes is.
fn is_among(names: &Names, nodes: &[&Node], sought: &Sought) -> bool
    ensures { result ≡ list_any (is_sought (asked_by names.now).is_super sought.now) (pointed nodes.now) }
{
    for node in nodes {
        if is_sought(names, *node, sought) {
            return true;
        }
    }
    false
}

/// Whether what is sought stands in the method.
pub(crate) fn stands_in(
    alloc: Global,
    names: &Names,
    tree: &Method,
    sought: &Sought,
) -> Result<bool, Memory>
    ensures { IfOk result (λ is. is ≡ list_any (λ e. is_sought (asked_by names.now).is_super sought.now e.1) (nodes (method_of tree.now).body)) }
{
    let nodes = nodes_of(alloc, &tree.body)?;
    Ok(is_among(names, nodes.as_slice(), sought))
}

/// Whether there is such a method, and `super` does not stand in it. Want of memory, if there is not enough of it to look.
pub fn is_without_super<L: Ledger>(
    alloc: Global,
    image: &Image,
    method: MethodName,
    steps: &mut Steps<L>,
) -> Result<bool, Memory>
    requires { IsOrderly image.now }
    ensures { IfOk result (λ is. is ≡ model.is_without_super (number_words image.now.names) (asked_by image.now.names).is_super (number_image image.now) method.class method.meta method.selector) }
{
    match opened_named(image, method, steps) {
        None => Ok(false),
        Some(found) => Ok(!stands_in(alloc, image.names(), found.tree, &Sought::Super)?),
    }
}
