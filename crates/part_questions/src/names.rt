// What is asked of the texts of names.
ghost use Rattle.std.specs.Prelude.{◌≡◌, codes};
ghost use Rattle.rb_base.specs.Names.{text_eq, name_at};
ghost use Rattle.scope_model.specs.Control.{is_loop};
ghost use Rattle.scope_model.specs.NameTests.{form_in};
ghost use Rattle.command_model.specs.Asked.{is_constant_text};

use rb_base::{NameId, Names};

fn same_text(a: &[u8], b: &[u8]) -> bool
    ensures { result ≡ text_eq a.now b.now }
{
    a == b
}

/// The text of a number, and the empty text where the table has no such number.
fn text_of(names: &Names, name: NameId) -> &[u8]
    ensures { result.now ≡ name_at names.now name }
{
    if name.0 < names.len() {
        names.text_of(name)
    } else {
        &[]
    }
}

/// Whether the name is `nil`, `true` or `false`.
pub fn is_constant(names: &Names, name: NameId) -> bool
    ensures { result ≡ is_constant_text (name_at names.now name) }
{
    let text = text_of(names, name);
    same_text(b"nil", text) || (same_text(b"true", text) || same_text(b"false", text))
}

/// Whether the name is `super`.
pub(crate) fn is_super(names: &Names, name: NameId) -> bool
    ensures { result ≡ text_eq (codes "super") (name_at names.now name) }
{
    same_text(b"super", text_of(names, name))
}

/// Whether the selector is that of a loop, whose receiver is a block that is run in place.
pub(crate) fn is_loop(names: &Names, selector: NameId) -> bool
    ensures { result ≡ is_loop (form_in names.now selector) }
{
    let text = text_of(names, selector);
    same_text(text, b"whileTrue:") || same_text(text, b"whileFalse:")
}
