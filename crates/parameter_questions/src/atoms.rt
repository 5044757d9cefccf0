// Literals that are atoms.
ghost use Rattle.std.specs.Prelude.{◌≡◌};
ghost use Rattle.command_model.specs.Plain.{is_passed_atom};
ghost use Rattle.commands.specs.Views.{asked_by};

use part_questions::{is_atom, is_constant};
use rb_base::Names;
use st_tree::{Literal, LiteralKind};

/// Whether the literal that a command passes is an atom: a word is `nil`, `true` or `false`.
pub fn is_passed_atom(names: &Names, literal: &Literal) -> bool
    ensures { result ≡ is_passed_atom (asked_by names.now) literal.now }
{
    match &literal.kind {
        LiteralKind::Word { name } => is_constant(names, *name),
        _ => is_atom(literal),
    }
}
