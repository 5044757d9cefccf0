// Expressions and messages.
ghost use Rattle.std.specs.Prelude.{◌≡◌, ◌<◌, length};
ghost use Rattle.rb_base.specs.Names.{name_at};
ghost use Rattle.tree_model.specs.Tree.{trees_of, map_names, map_messages};
ghost use Rattle.tree_model.specs.AllNames.{AllNames, MessagesNames};
ghost use Rattle.st_tree.specs.View.{messages_of};
ghost use Rattle.text_model.specs.Pieces as piece;
ghost use Rattle.text_model.specs.Precedences as rule;

use rb_base::{NameId, Names};
use st_tree::{Message, Node, NodeKind};
use text_model::Precedence;

/// How loosely an expression holds together. The numbers of its names are those of `names`.
#[tactic(auto, using(crate::proofs::Arguments::precedence_rules))]
pub fn precedence_of(node: &Node, names: &Names) -> Precedence
    requires { AllNames (λ n. n < length names.now) node.now }
    ensures { result ≡ rule.precedence_of (map_names (name_at names.now) node.now) }
{
    match &node.kind {
        NodeKind::Send {
            selector,
            arguments,
            ..
        } => message_precedence(text_of(names, *selector), arguments.as_slice()),
        NodeKind::Cascade { .. } | NodeKind::Assign { .. } => Precedence::Keyword,
        NodeKind::Var { .. } | NodeKind::Literal { .. } => Precedence::Unary,
        NodeKind::Block { .. } | NodeKind::Brace { .. } => Precedence::Unary,
        NodeKind::Return { .. } => Precedence::Unary,
    }
}

/// How loosely the first of these messages holds together: it decides for the receiver of a cascade. The numbers of
/// their names are those of `names`.
#[tactic(auto, using(crate::proofs::Arguments::precedence_rules))]
pub fn messages_precedence(messages: &[Message], names: &Names) -> Precedence
    requires { MessagesNames (λ n. n < length names.now) (messages_of messages.now) }
    ensures { result ≡ rule.messages_precedence (map_messages (name_at names.now) (messages_of messages.now)) }
{
    match messages.split_first() {
        None => Precedence::Unary,
        Some((first, _)) => message_precedence(
            text_of(names, first.selector),
            first.arguments.as_slice(),
        ),
    }
}

/// How loosely a message with this selector and these arguments holds together.
#[tactic(auto, using(crate::proofs::Arguments::precedence_rules))]
pub fn message_precedence(selector: &[u8], arguments: &[Node]) -> Precedence
    ensures { result ≡ rule.message_precedence selector.now (trees_of arguments.now) }
{
    if arguments.is_empty() {
        Precedence::Unary
    } else if has_colon(selector) {
        Precedence::Keyword
    } else {
        Precedence::Binary
    }
}

/// Whether a selector has a colon, as those of keywords do.
fn has_colon(selector: &[u8]) -> bool
    ensures { result ≡ piece.has_colon selector.now }
{
    selector.iter().any(|byte| *byte == b':')
}

/// The text of a name, as contracts on canonical texts speak of it.
pub fn text_of(names: &Names, name: NameId) -> &[u8]
    requires { name < length names.now }
    ensures { result.now ≡ name_at names.now name }
{
    names.text_of(name)
}
