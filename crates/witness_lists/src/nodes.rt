// What is sought in code.
ghost use Rattle.std.specs.Prelude.{◌≡◌, nat_eq};
ghost use Rattle.rb_base.specs.Names.{name_at, text_eq};
ghost use Rattle.rename_model.specs.Conditions.{has_message_that, is_reflective};
ghost use Rattle.rename_model.specs.NamesThere.{is_named_by};
ghost use Rattle.command_model.specs.Numbers.{number_command_words};
ghost use Rattle.st_tree.specs.View.{messages_of, method_of, sequence_of};
ghost use Rattle.witness_lists.specs.declared.nodes.Sought.TheVariants as sought;
ghost use Rattle.witness_lists.specs.Sought.{heads_doit, heads_method, is_super_in, passes};

use name_meanings::is_among;
use name_questions::{is_not_understood, is_reflective_name};
use node_questions::{sends, uses};
use rb_base::{NameId, Names};
use st_kernel::is_reflective;
use st_tree::{Message, Method, Node, NodeKind, Sequence};

/// What is sought in code.
#[derive(Clone, Copy, Debug)]
pub enum Sought {
    /// What looks at the program itself, and a method for messages that are not understood.
    Reflection,
    /// What reads, assigns or declares the name.
    Name(NameId),
    /// What sends the selector, and a method of it.
    Selector(NameId),
    /// The name `super`.
    Super,
    /// A message of the selector to `super`.
    SentToSuper(NameId),
}

/// The text of a number, and the empty text if the table has no such number.
pub fn text_of(names: &Names, name: NameId) -> &[u8]
    ensures { result.now ≡ name_at names.now name }
{
    if name.0 < names.len() {
        names.text_of(name)
    } else {
        &[]
    }
}

fn same_text(a: &[u8], b: &[u8]) -> bool
    ensures { result ≡ text_eq a.now b.now }
{
    a == b
}

/// Whether one of the messages is reflective.
fn is_one_reflective(names: &Names, messages: &[Message]) -> bool
    ensures { result ≡ has_message_that (number_command_words names.now).is_reflective_selector (messages_of messages.now) }
{
    for message in messages {
        if is_reflective(text_of(names, message.selector)) {
            return true;
        }
    }
    false
}

/// Whether the node sends a reflective selector, or reads or assigns a reflective name.
fn is_node_reflective(names: &Names, node: &Node) -> bool
    ensures { result ≡ is_reflective (number_command_words names.now) node.now }
{
    match &node.kind {
        NodeKind::Send { selector, .. } => is_reflective(text_of(names, *selector)),
        NodeKind::Cascade { messages, .. } => is_one_reflective(names, messages.as_slice()),
        NodeKind::Var { name } | NodeKind::Assign { name, .. } => {
            is_reflective_name(text_of(names, *name))
        }
        _ => false,
    }
}

/// Whether the node reads, assigns or declares the name.
fn is_named_by(node: &Node, name: NameId) -> bool
    ensures { result ≡ is_named_by nat_eq name node.now }
{
    match &node.kind {
        NodeKind::Block { parameters, body } => {
            is_among(parameters.as_slice(), name) || is_among(body.temporaries.as_slice(), name)
        }
        _ => uses(node, name),
    }
}

/// Whether the node is `super`.
fn is_super(names: &Names, node: &Node) -> bool
    ensures { result ≡ is_super_in names.now node.now }
{
    match &node.kind {
        NodeKind::Var { name } => same_text(b"super", text_of(names, *name)),
        _ => false,
    }
}

/// Whether the node sends the selector to `super`.
fn is_super_sender(names: &Names, node: &Node, selector: NameId) -> bool
    ensures { result ≡ passes names.now (sought.SentToSuper selector) node.now }
{
    match &node.kind {
        NodeKind::Send { receiver, .. } | NodeKind::Cascade { receiver, .. } => {
            is_super(names, receiver) && sends(node, selector)
        }
        _ => false,
    }
}

/// Whether the node is what is sought.
pub(crate) fn passes(names: &Names, sought: &Sought, node: &Node) -> bool
    ensures { result ≡ passes names.now sought.now node.now }
{
    match *sought {
        Sought::Reflection => is_node_reflective(names, node),
        Sought::Name(name) => is_named_by(node, name),
        Sought::Selector(selector) => sends(node, selector),
        Sought::Super => is_super(names, node),
        Sought::SentToSuper(selector) => is_super_sender(names, node, selector),
    }
}

/// Whether a method is sought as a whole.
pub(crate) fn heads_method(names: &Names, sought: &Sought, tree: &Method) -> bool
    ensures { result ≡ heads_method names.now sought.now (method_of tree.now) }
{
    match *sought {
        Sought::Reflection => is_not_understood(text_of(names, tree.selector)),
        Sought::Name(name) => {
            is_among(tree.arguments.as_slice(), name)
                || is_among(tree.body.temporaries.as_slice(), name)
        }
        Sought::Selector(selector) => selector == tree.selector,
        Sought::Super | Sought::SentToSuper(_) => false,
    }
}

/// Whether a do-it is sought as a whole.
pub(crate) fn heads_doit(sought: &Sought, body: &Sequence) -> bool
    ensures { result ≡ heads_doit sought.now (sequence_of body.now) }
{
    match *sought {
        Sought::Name(name) => is_among(body.temporaries.as_slice(), name),
        _ => false,
    }
}
