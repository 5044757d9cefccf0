// What names mean, in words.
ghost use Rattle.std.specs.Prelude.{◌≡◌, ◌++◌, codes, OnOk};
ghost use Rattle.rb_base.specs.Names.{name_at};
ghost use Rattle.image_model.specs.Means.{argument, map_meaning, temporary};
ghost use Rattle.name_meanings.specs.Meanings.{kind_of, meaning_of};
ghost use Rattle.refusal_witnesses.specs.Lines.{kind_text, meaning_text, meanings_text};

use class_table::Image;
use image_queries::text_of;
use name_meanings::{Meaning, VariableKind};
use rb_base::{Memory, NameId, Text};

/// A kind of variables, before the class.
fn kind_text(kind: VariableKind) -> &'static [u8]
    ensures { result.now ≡ kind_text (kind_of kind) }
{
    match kind {
        VariableKind::Instance => b"instance variable of ",
        VariableKind::ClassSide => b"class-side variable of ",
        VariableKind::Shared => b"class variable of ",
    }
}

/// An argument of a scope, from the method inwards.
fn argument_text(scope: usize) -> &'static [u8]
    ensures { result.now ≡ meaning_text (argument scope) }
{
    if scope == 0 {
        b"argument"
    } else {
        b"block parameter"
    }
}

/// A temporary of a scope.
fn temporary_text(scope: usize) -> &'static [u8]
    ensures { result.now ≡ meaning_text (temporary scope) }
{
    if scope == 0 {
        b"temporary"
    } else {
        b"temporary of a block"
    }
}

/// Appends what a name means.
fn push_meaning(image: &Image, meaning: Meaning, out: &mut Text) -> Result<(), Memory>
    ensures { OnOk result (out.new ≡ out.old ++ meaning_text (map_meaning (name_at image.now.names) (meaning_of meaning))) }
{
    match meaning {
        Meaning::Pseudo => out.push_slice(b"name of the language"),
        Meaning::Argument { scope } => out.push_slice(argument_text(scope)),
        Meaning::Temporary { scope } => out.push_slice(temporary_text(scope)),
        Meaning::Variable { kind, definer } => {
            out.push_slice(kind_text(kind))?;
            out.push_slice(text_of(image, definer))
        }
        Meaning::Class(name) => {
            out.push_slice(b"class ")?;
            out.push_slice(text_of(image, name))
        }
        Meaning::Transcript => out.push_slice(b"Transcript"),
        Meaning::Undeclared => out.push_slice(b"nothing"),
    }
}

/// Appends a name with its two meanings: `rate: instance variable of Savings, nothing`.
pub(crate) fn push_meanings(
    image: &Image,
    name: NameId,
    one: Meaning,
    other: Meaning,
    out: &mut Text,
) -> Result<(), Memory>
    ensures { OnOk result (out.new ≡ out.old ++ meanings_text (name_at image.now.names name) (map_meaning (name_at image.now.names) (meaning_of one)) (map_meaning (name_at image.now.names) (meaning_of other))) }
{
    out.push_slice(text_of(image, name))?;
    out.push_slice(b": ")?;
    push_meaning(image, one, out)?;
    out.push_slice(b", ")?;
    push_meaning(image, other, out)
}
