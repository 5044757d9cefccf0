// Literals.
ghost use Rattle.std.specs.Prelude.{◌≡◌, ◌<◌, ◌++◌, length, OnOk, codes};
ghost use Rattle.rb_base.specs.Names.{name_at};
ghost use Rattle.tree_model.specs.Tree.{map_literal, map_literals, literals_of};
ghost use Rattle.tree_model.specs.AllNames.{LiteralNames, LiteralsNames};
ghost use Rattle.text_model.specs.Pieces.{pieces_joined};
ghost use Rattle.text_model.specs.Literals.{quoted_text, symbol_text, literal_text, literal_texts};

use crate::backward::Backward;
use crate::selectors::{is_selector, write_name};
use rb_base::{Memory, Names};
use st_tree::{Literal, LiteralKind};

/// Writes the bytes in quotes before the text.
fn write_quoted(bytes: &[u8], out: &mut Backward<'_, '_>) -> Result<(), Memory>
    ensures { OnOk result (out.new ≡ quoted_text bytes.now ++ out.old) }
{
    out.put_byte(b'\'')?;
    out.put_doubled(bytes)?;
    out.put_byte(b'\'')
}

/// Writes a symbol before the text.
fn write_symbol(bytes: &[u8], out: &mut Backward<'_, '_>) -> Result<(), Memory>
    ensures { OnOk result (out.new ≡ symbol_text bytes.now ++ out.old) }
{
    if is_selector(bytes) {
        out.put(bytes)?;
        return out.put_byte(b'#');
    }
    write_quoted(bytes, out)?;
    out.put_byte(b'#')
}

/// Writes a literal before the text.
#[cycle(literal)]
#[tactic(auto, using(crate::proofs::Items::item_rules))]
pub(crate) fn write_literal(
    literal: &Literal,
    names: &Names,
    out: &mut Backward<'_, '_>,
) -> Result<(), Memory>
    requires { LiteralNames (λ n. n < length names.now) literal.now }
    ensures { OnOk result (out.new ≡ literal_text (map_literal (name_at names.now) literal.now) ++ out.old) }
{
    match &literal.kind {
        LiteralKind::Number { text } => out.put(text.as_slice()),
        LiteralKind::Str { text } => write_quoted(text.as_slice(), out),
        LiteralKind::Symbol { text } => write_symbol(text.as_slice(), out),
        LiteralKind::Char { byte } => {
            out.put_byte(*byte)?;
            out.put_byte(b'$')
        }
        LiteralKind::Array { items } => {
            out.put_byte(b')')?;
            write_literals(items.as_slice(), names, out)?;
            out.put(b"#(")
        }
        LiteralKind::Bytes { items } => {
            out.put_byte(b']')?;
            write_literals(items.as_slice(), names, out)?;
            out.put(b"#[")
        }
        LiteralKind::Word { name } => write_name(*name, names, out),
    }
}

/// Writes literals with one blank between them before the text.
#[cycle(literal)]
#[tactic(auto, using(crate::proofs::Items::item_rules))]
fn write_literals(
    literals: &[Literal],
    names: &Names,
    out: &mut Backward<'_, '_>,
) -> Result<(), Memory>
    requires { LiteralsNames (λ n. n < length names.now) (literals_of literals.now) }
    ensures { OnOk result (out.new ≡
        pieces_joined (codes " ") (literal_texts (map_literals (name_at names.now) (literals_of literals.now))) ++ out.old) }
{
    match literals.split_first() {
        None => Ok(()),
        Some((first, rest)) => {
            let mut at = rest.len();
            while at > 0 {
                at -= 1;
                write_literal(&rest[at], names, out)?;
                out.put_byte(b' ')?;
            }
            write_literal(first, names, out)
        }
    }
}
