// Whether a method that a command adds looks at the program itself.
ghost use Rattle.std.specs.Prelude.{◌≡◌, IfOk};
ghost use Rattle.std.specs.List.{list_any};
ghost use Rattle.rb_base.specs.Names.{name_at};
ghost use Rattle.st_tree.specs.View.{messages_of, sequence_of};
ghost use Rattle.mentions.specs.Listing.{pointed};
ghost use Rattle.rename_model.specs.Conditions as conditions;
ghost use Rattle.command_model.specs.NameConditions as asked;
ghost use Rattle.command_model.specs.Numbers.{number_command_words};
ghost use Rattle.commands.specs.Views.{command_of};

use commands::{Command, NewMethod};
use mentions::nodes_of;
use name_questions::{is_not_understood, is_reflective_name};
use rb_base::{Memory, NameId, Names};
use st_kernel::is_reflective;
use st_tree::{Message, Node, NodeKind, Sequence};
use std::alloc::Global;

/// The text of a number, and the empty text where the table has no such number.
fn text_of(names: &Names, name: NameId) -> &[u8]
    ensures { result.now ≡ name_at names.now name }
{
    if name.0 < names.len() {
        names.text_of(name)
    } else {
        &[]
    }
}

/// Whether one of the messages is reflective.
fn is_one_reflective(names: &Names, messages: &[Message]) -> bool
    ensures { result ≡ conditions.has_message_that (number_command_words names.now).is_reflective_selector (messages_of messages.now) }
{
    for message in messages {
        if is_reflective(text_of(names, message.selector)) {
            return true;
        }
    }
    false
}

/// Whether the node sends a reflective selector, or reads or assigns a reflective name.
fn is_node_reflective(names: &Names, node: &Node) -> bool
    ensures { result ≡ conditions.is_reflective (number_command_words names.now) node.now }
{
    match &node.kind {
        NodeKind::Send { selector, .. } => is_reflective(text_of(names, *selector)),
        NodeKind::Cascade { messages, .. } => is_one_reflective(names, messages.as_slice()),
        NodeKind::Var { name } | NodeKind::Assign { name, .. } => {
            is_reflective_name(text_of(names, *name))
        }
        _ => false,
    }
}

/// Whether one of the nodes does.
fn is_any_reflective(names: &Names, nodes: &[&Node]) -> bool
    ensures { result ≡ list_any (conditions.is_reflective (number_command_words names.now)) (pointed nodes.now) }
{
    for node in nodes {
        if is_node_reflective(names, *node) {
            return true;
        }
    }
    false
}

/// Whether a node of the sequence does.
fn reflects(alloc: Global, names: &Names, body: &Sequence) -> Result<bool, Memory>
    ensures { IfOk result (λ is. is ≡ conditions.reflects (number_command_words names.now) (sequence_of body.now)) }
{
    let nodes = nodes_of(alloc, body)?;
    Ok(is_any_reflective(names, nodes.as_slice()))
}

/// Whether no method that the command adds looks at the program itself, or is the one for messages that are not understood.
pub(crate) fn adds_no_reflection(
    alloc: Global,
    names: &Names,
    command: &Command,
) -> Result<bool, Memory>
    ensures { IfOk result (λ is. is ≡ asked.adds_no_reflection (number_command_words names.now) (command_of command.now)) }
{
    let Command::AddMethod(NewMethod { tree, .. }) = command else {
        return Ok(true);
    };
    if is_not_understood(text_of(names, tree.selector)) {
        return Ok(false);
    }
    let reflects = reflects(alloc, names, &tree.body)?;
    Ok(!reflects)
}
