// Messages to names and to class sides.
ghost use Rattle.std.specs.Prelude.{◌≡◌, map, List, ℕ, option_map};
ghost use Rattle.rb_base.specs.Names.{name_at};
ghost use Rattle.tree_model.specs.Tree.{map_literal, map_names, map_trees, map_statements, trees_of, map_sequence};
ghost use Rattle.st_tree.specs.View.{sequence_of, statements_of};
ghost use Rattle.file_model.specs.Forms as forms;
ghost use Rattle.chunk_forms.specs.Told.{argument_text, receiver_text, sent_text};

use crate::words::same_text;
use rb_base::{NameId, Names};
use st_tree::{Literal, LiteralKind, Node, NodeKind, Sequence, Statement};

/// An argument of a message: a symbol, a string, a numeral, or anything else.
#[derive(Clone, Copy)]
pub enum Argument<'a> {
    Symbol(&'a [u8]),
    String(&'a [u8]),
    Numeral(&'a [u8]),
    Other,
}

/// A class as it is named by a receiver: by its name, or by the message `class` to its name, which is its class side.
#[derive(Clone, Copy)]
pub(crate) struct Receiver {
    pub class: NameId,
    pub meta: bool,
}

/// A message to a name, or to the class side of a name.
#[derive(Clone, Copy)]
pub struct Sent<'a> {
    pub class: NameId,
    pub meta: bool,
    pub selector: NameId,
    pub arguments: &'a [Node],
}

/// The text of a number, and the empty text where the table has no such number. Takes no memory.
pub fn text_of(names: &Names, name: NameId) -> &[u8]
    ensures { result.now ≡ name_at names.now name }
{
    if name.0 < names.len() {
        names.text_of(name)
    } else {
        &[]
    }
}

/// A literal as an argument.
fn argument_of_literal(literal: &Literal) -> Argument<'_>
    ensures { (f : ℕ → List ℕ) → argument_text result ≡ forms.argument_of_literal (map_literal f literal.now) }
{
    match &literal.kind {
        LiteralKind::Str { text } => Argument::String(text.as_slice()),
        LiteralKind::Symbol { text } => Argument::Symbol(text.as_slice()),
        LiteralKind::Number { text } => Argument::Numeral(text.as_slice()),
        _ => Argument::Other,
    }
}

/// A node as an argument.
pub(crate) fn argument_of(node: &Node) -> Argument<'_>
    ensures { (f : ℕ → List ℕ) → argument_text result ≡ forms.argument_of (map_names f node.now) }
{
    match &node.kind {
        NodeKind::Literal { value } => argument_of_literal(value),
        _ => Argument::Other,
    }
}

/// The name that a node is.
fn name_in(node: &Node) -> Option<NameId>
    ensures { (f : ℕ → List ℕ) → option_map f result ≡ forms.name_in (map_names f node.now) }
{
    match &node.kind {
        NodeKind::Var { name } => Some(*name),
        _ => None,
    }
}

/// The class whose class side is named, where the selector is `class` and the receiver a name.
fn side_in(receiver: &Node, selector: NameId, names: &Names) -> Option<Receiver>
    ensures { option_map (receiver_text names.now) result ≡ forms.side_in (map_names (name_at names.now) receiver.now) (name_at names.now selector) }
{
    if !same_text(text_of(names, selector), b"class") {
        return None;
    }
    match name_in(receiver) {
        None => None,
        Some(class) => Some(Receiver { class, meta: true }),
    }
}

/// The class that a node names as a receiver.
fn receiver_of(node: &Node, names: &Names) -> Option<Receiver>
    ensures { option_map (receiver_text names.now) result ≡ forms.receiver_of (map_names (name_at names.now) node.now) }
{
    match &node.kind {
        NodeKind::Var { name } => Some(Receiver {
            class: *name,
            meta: false,
        }),
        NodeKind::Send {
            receiver,
            selector,
            ..
        } => side_in(receiver, *selector, names),
        _ => None,
    }
}

/// The message that a node is, if it is one to a name or to the class side of a name.
fn sent_by<'a>(node: &'a Node, names: &Names) -> Option<Sent<'a>>
    ensures { option_map (sent_text names.now) result ≡ forms.sent_by (map_names (name_at names.now) node.now) }
{
    match &node.kind {
        NodeKind::Send {
            receiver,
            selector,
            arguments,
        } => match receiver_of(receiver, names) {
            None => None,
            Some(class) => Some(Sent {
                class: class.class,
                meta: class.meta,
                selector: *selector,
                arguments: arguments.as_slice(),
            }),
        },
        _ => None,
    }
}

/// The message of statements that are one statement.
fn sent_in_statements<'a>(statements: &'a [Statement], names: &Names) -> Option<Sent<'a>>
    ensures { option_map (sent_text names.now) result ≡ forms.sent_in_statements (map_statements (name_at names.now) (statements_of statements.now)) }
{
    match statements.split_first() {
        None => None,
        Some((first, others)) => {
            if others.is_empty() {
                sent_by(&first.node, names)
            } else {
                None
            }
        }
    }
}

/// The message that a chunk is, where it has no temporaries and this one statement. Takes no memory.
pub fn sent_in<'a>(body: &'a Sequence, names: &Names) -> Option<Sent<'a>>
    ensures { option_map (sent_text names.now) result ≡ forms.sent_of (map_sequence (name_at names.now) (sequence_of body.now)) (map (name_at names.now) body.now.temporaries) }
{
    if body.temporaries.is_empty() {
        sent_in_statements(body.statements.as_slice(), names)
    } else {
        None
    }
}

/// Whether a message is one to `Smalltalk`.
pub(crate) fn is_to_system(sent: &Sent<'_>, names: &Names) -> bool
    ensures { result ≡ forms.is_to_system (sent_text names.now sent.now) }
{
    !sent.meta && same_text(text_of(names, sent.class), b"Smalltalk")
}
