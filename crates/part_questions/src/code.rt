// Expressions whose value nothing changes.
ghost use Rattle.std.specs.Prelude.{◌≡◌};
ghost use Rattle.class_table.specs.Valid.{IsLive, IsOrderly};
ghost use Rattle.class_table.specs.View.{number_image};
ghost use Rattle.name_meanings.specs.Meanings.{meaning_of};
ghost use Rattle.command_model.specs.Asked.{no_parts};
ghost use Rattle.command_model.specs.Numbers.{number_asked};
ghost use Rattle.command_model.specs.Plain as model;
ghost use Rattle.part_questions.specs.Codes.{entry_of};

use crate::names::is_constant;
use class_table::{ClassId, Image};
use name_meanings::{Meaning, method_meaning};
use rb_base::{NameId, Names};
use st_literals::numeral;
use st_tree::{Literal, LiteralKind, Method, Node, NodeKind, Path};

/// The code of a method of a class and a side. The method need not be one of the image.
#[derive(Clone, Copy)]
pub struct MethodCode<'a> {
    pub class: ClassId,
    /// Whether it is a method of the class side.
    pub meta: bool,
    pub tree: &'a Method,
}

/// Whether the literal is an atom: a number of 64 bits, a string, a symbol, a character, `nil`, `true` or `false`.
pub fn is_atom(literal: &Literal) -> bool
    ensures { result ≡ model.is_atom_literal literal.now }
{
    match &literal.kind {
        LiteralKind::Number { text } => numeral(text.as_slice()).is_some(),
        LiteralKind::Array { .. } | LiteralKind::Bytes { .. } => false,
        LiteralKind::Str { .. } | LiteralKind::Symbol { .. } => true,
        LiteralKind::Char { .. } | LiteralKind::Word { .. } => true,
    }
}

/// Whether a name with the meaning is `nil`, `true`, `false`, `self`, an argument or block parameter, or a class.
fn is_plain_name(names: &Names, self_name: NameId, meaning: Meaning, name: NameId) -> bool
    ensures { result ≡ model.is_plain_name (number_asked names.now self_name no_parts) (meaning_of meaning) name }
{
    match meaning {
        Meaning::Pseudo => is_constant(names, name) || self_name == name,
        Meaning::Argument { .. } | Meaning::Class(_) => true,
        Meaning::Temporary { .. } | Meaning::Variable { .. } => false,
        Meaning::Transcript | Meaning::Undeclared => false,
    }
}

/// Whether the node at the place of the method is an atom, `self`, an argument or block parameter, or a class. `self_name` is
/// the name `self`.
pub fn is_plain(
    image: &Image,
    self_name: NameId,
    code: &MethodCode<'_>,
    path: &Path,
    node: &Node,
) -> bool
    requires orderly { IsOrderly image.now }
    requires live { IsLive image.now.class_order code.now.class }
    ensures { result ≡ model.is_plain (number_asked image.now.names self_name no_parts) (number_image image.now) (entry_of image.now code.now) path.now node.now }
{
    match &node.kind {
        NodeKind::Var { name } => {
            let meaning = method_meaning(image, code.class, code.meta, code.tree, path, *name);
            is_plain_name(image.names(), self_name, meaning, *name)
        }
        NodeKind::Literal { value } => is_atom(value),
        _ => false,
    }
}
