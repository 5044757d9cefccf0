// Names with a meaning of their own, and lists of names.
ghost use Rattle.std.specs.Prelude.{◌≡◌, nat_eq};
ghost use Rattle.std.specs.List.{list_any};
ghost use Rattle.rb_base.specs.Names.{text_eq, name_at};
ghost use Rattle.scope_model.specs.SpecialNames.{is_one_of, is_pseudo_variable, control_form};
ghost use Rattle.scope_model.specs.NameTests.{is_pseudo_in, form_in};
ghost use Rattle.scope_model.specs.Scope.{is_among, declares};

use rb_base::{NameId, Names};
use scope_model::ControlForm;

/// The text of a number, and the empty text where the table has no such number.
fn text_of(names: &Names, name: NameId) -> &[u8]
    ensures { result.now ≡ name_at names.now name }
{
    if name.0 < names.len() {
        names.text_of(name)
    } else {
        &[]
    }
}

/// Whether both texts are the same.
fn same_text(a: &[u8], b: &[u8]) -> bool
    ensures { result ≡ text_eq a.now b.now }
{
    a == b
}

/// Whether both names are the same.
pub(crate) fn same_name(a: NameId, b: NameId) -> bool
    ensures { result ≡ nat_eq a b }
{
    a.0 == b.0
}

/// Whether the text is a pseudo-variable's name.
#[tactic(auto, unfolding(scope_model::specs::SpecialNames::is_pseudo_variable))]
fn is_pseudo_text(text: &[u8]) -> bool
    ensures { result ≡ is_pseudo_variable text.now }
{
    same_text(text, b"self")
        || same_text(text, b"super")
        || same_text(text, b"nil")
        || same_text(text, b"true")
        || same_text(text, b"false")
        || same_text(text, b"thisContext")
}

/// Which blocks a selector demands to make a control send.
#[tactic(auto, unfolding(scope_model::specs::SpecialNames::control_form))]
fn form_of_text(text: &[u8]) -> ControlForm
    ensures { result ≡ control_form text.now }
{
    if same_text(text, b"ifTrue:")
        || same_text(text, b"ifFalse:")
        || same_text(text, b"and:")
        || same_text(text, b"or:")
    {
        ControlForm::OneBlock
    } else if same_text(text, b"ifTrue:ifFalse:") || same_text(text, b"ifFalse:ifTrue:") {
        ControlForm::TwoBlocks
    } else if same_text(text, b"whileTrue:") || same_text(text, b"whileFalse:") {
        ControlForm::Loop
    } else {
        ControlForm::NoControl
    }
}

/// Whether the name is a pseudo-variable's. A number without a text is not.
pub fn is_pseudo(names: &Names, name: NameId) -> bool
    ensures { result ≡ is_pseudo_in names.now name }
{
    is_pseudo_text(text_of(names, name))
}

/// Which blocks the selector demands to make a control send.
pub(crate) fn form_of(names: &Names, selector: NameId) -> ControlForm
    ensures { result ≡ form_in names.now selector }
{
    form_of_text(text_of(names, selector))
}

/// Whether the name is among these.
pub(crate) fn is_among(names: &[NameId], name: NameId) -> bool
    ensures { result ≡ is_among nat_eq names.now name }
{
    names.iter().any(|other| same_name(name, *other))
}

/// Whether these parameters and temporaries declare what the name stands for.
pub(crate) fn declares(
    parameters: &[NameId],
    temporaries: &[NameId],
    name: NameId,
    names: &Names,
) -> bool
    ensures { result ≡ declares nat_eq (is_pseudo_in names.now) parameters.now temporaries.now name }
{
    !is_pseudo(names, name) && (is_among(parameters, name) || is_among(temporaries, name))
}
