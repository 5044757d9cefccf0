// What code passes for an argument of a selector.
ghost use Rattle.std.specs.Prelude.{◌≡◌, IfOk};
ghost use Rattle.std.specs.List.{list_all};
ghost use Rattle.tree_model.specs.Tree.{trees_of};
ghost use Rattle.st_tree.specs.View.{messages_of, sequence_of};
ghost use Rattle.class_table.specs.Valid.{IsOrderly};
ghost use Rattle.name_meanings.specs.Meanings.{meaning_of};
ghost use Rattle.command_model.specs.ParameterConditions as model;
ghost use Rattle.placed_nodes.specs.Placing.{placed};
ghost use Rattle.parameter_questions.specs.Codes.{IsOfLiveClass, means_in, body_of, may_be_dropped, is_dropped, all_dropped, are_dropped, passes_other};

use crate::found::{Sought, found_in};
use class_table::{ClassId, Image};
use name_meanings::{Meaning, doit_meaning, method_meaning};
use part_questions::is_atom;
use placed_nodes::PlacedNode;
use rb_base::{Memory, NameId};
use st_tree::{Message, Method, Node, NodeKind, Path, Sequence};
use std::alloc::Global;

/// The code of a method of a class and a side, or of a do-it.
#[derive(Clone, Copy)]
pub enum Code<'a> {
    /// A method.
    Method {
        class: ClassId,
        /// Whether it is a method of the class side.
        meta: bool,
        tree: &'a Method,
    },
    /// A do-it.
    DoIt {
        body: &'a Sequence,
    },
}

/// The body of the code.
pub fn body_of<'a>(code: &Code<'a>) -> &'a Sequence
    ensures { sequence_of result.now ≡ body_of code.now }
{
    match code {
        Code::Method { tree, .. } => &tree.body,
        Code::DoIt { body } => *body,
    }
}

/// What a name stands for at a place of the code.
pub fn meaning_at(image: &Image, code: &Code<'_>, path: &Path, name: NameId) -> Meaning
    requires orderly { IsOrderly image.now }
    requires live { IsOfLiveClass image.now code.now }
    ensures { meaning_of result ≡ means_in image.now code.now path.now name }
{
    match code {
        Code::Method { class, meta, tree } => {
            method_meaning(image, *class, *meta, *tree, path, name)
        }
        Code::DoIt { body } => doit_meaning(image, *body, path, name),
    }
}

/// Whether the meaning is that of a name that is declared.
fn is_declared(meaning: Meaning) -> bool
    ensures { result ≡ model.is_declared (meaning_of meaning) }
{
    match meaning {
        Meaning::Undeclared => false,
        _ => true,
    }
}

/// Whether the argument of a message at a place is an atom, or a name that is declared.
fn may_be_dropped(image: &Image, code: &Code<'_>, path: &Path, argument: &Node) -> bool
    requires orderly { IsOrderly image.now }
    requires live { IsOfLiveClass image.now code.now }
    ensures { result ≡ may_be_dropped (means_in image.now code.now path.now) argument.now }
{
    match &argument.kind {
        NodeKind::Var { name } => is_declared(meaning_at(image, code, path, *name)),
        NodeKind::Literal { value } => is_atom(value),
        _ => false,
    }
}

/// Whether the argument of a number, counted from 0, is there and is such.
fn is_dropped(
    image: &Image,
    code: &Code<'_>,
    path: &Path,
    arguments: &[Node],
    number: usize,
) -> bool
    requires orderly { IsOrderly image.now }
    requires live { IsOfLiveClass image.now code.now }
    ensures { result ≡ is_dropped (means_in image.now code.now path.now) number (trees_of arguments.now) }
{
    match arguments.get(number) {
        None => false,
        Some(argument) => may_be_dropped(image, code, path, argument),
    }
}

/// Whether it is in each of the messages that have the selector.
fn all_dropped(
    image: &Image,
    code: &Code<'_>,
    path: &Path,
    messages: &[Message],
    selector: NameId,
    number: usize,
) -> bool
    requires orderly { IsOrderly image.now }
    requires live { IsOfLiveClass image.now code.now }
    ensures { result ≡ all_dropped (means_in image.now code.now path.now) selector number (messages_of messages.now) }
{
    for message in messages {
        let arguments = message.arguments.as_slice();
        if selector == message.selector && !is_dropped(image, code, path, arguments, number) {
            return false;
        }
    }
    true
}

/// Whether it is in each message of the selector that the node sends.
pub fn are_dropped_by(
    image: &Image,
    code: &Code<'_>,
    found: &PlacedNode<'_>,
    selector: NameId,
    number: usize,
) -> bool
    requires orderly { IsOrderly image.now }
    requires live { IsOfLiveClass image.now code.now }
    ensures { result ≡ are_dropped (means_in image.now code.now) selector number (found.now.path, found.now.node.now) }
{
    let node = found.node;
    match &node.kind {
        NodeKind::Send {
            selector: sent,
            arguments,
            ..
        } => {
            selector != *sent || is_dropped(image, code, &found.path, arguments.as_slice(), number)
        }
        NodeKind::Cascade { messages, .. } => all_dropped(
            image,
            code,
            &found.path,
            messages.as_slice(),
            selector,
            number,
        ),
        _ => true,
    }
}

/// Whether it is in each message of the selector that one of the nodes sends.
fn are_dropped_in(
    image: &Image,
    code: &Code<'_>,
    found: &[PlacedNode<'_>],
    selector: NameId,
    number: usize,
) -> bool
    requires orderly { IsOrderly image.now }
    requires live { IsOfLiveClass image.now code.now }
    ensures { result ≡ list_all (are_dropped (means_in image.now code.now) selector number) (placed found.now) }
{
    for node in found {
        if !are_dropped_by(image, code, node, selector, number) {
            return false;
        }
    }
    true
}

/// Whether some message of the selector in the code passes something else.
pub(crate) fn passes_other(
    alloc: Global,
    image: &Image,
    code: &Code<'_>,
    selector: NameId,
    number: usize,
) -> Result<bool, Memory>
    requires orderly { IsOrderly image.now }
    requires live { IsOfLiveClass image.now code.now }
    ensures { IfOk result (λ is. is ≡ passes_other (means_in image.now code.now) selector number (body_of code.now)) }
{
    let found = found_in(alloc, &Sought::Sent(selector), body_of(code))?;
    Ok(!are_dropped_in(image, code, found.as_slice(), selector, number))
}
