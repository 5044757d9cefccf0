// New names.
ghost use Rattle.std.specs.Prelude.{◌≡◌};
ghost use Rattle.scope_model.specs.SpecialNames.{is_pseudo_variable};
ghost use Rattle.rename_model.specs.CommandWords.{begins_upper, may_be_declared, is_good_class_name, is_good_variable_name, is_good_selector};

use crate::special::same_text;
use spelled_words::{is_identifier, is_selector};

/// The most bytes of a new name.
const LONGEST: usize = 200;

/// Whether the name is a pseudo-variable's.
#[tactic(auto, unfolding(scope_model::specs::SpecialNames::is_pseudo_variable))]
fn is_pseudo_variable(name: &[u8]) -> bool
    ensures { result ≡ is_pseudo_variable name.now }
{
    same_text(name, b"self")
        || same_text(name, b"super")
        || same_text(name, b"nil")
        || same_text(name, b"true")
        || same_text(name, b"false")
        || same_text(name, b"thisContext")
}

/// Whether the first byte is an upper-case letter.
fn begins_upper(name: &[u8]) -> bool
    ensures { result ≡ begins_upper name.now }
{
    match name.first() {
        None => false,
        Some(byte) => byte.is_ascii_uppercase(),
    }
}

/// Whether a program may declare the name, and it is short enough.
fn may_be_declared(name: &[u8]) -> bool
    ensures { result ≡ may_be_declared name.now }
{
    name.len() <= LONGEST
        && is_identifier(name)
        && !(is_pseudo_variable(name)
            || same_text(b"Smalltalk", name)
            || same_text(b"Transcript", name))
}

/// Whether a class or a class variable may be given the name: an identifier that begins upper case, of at most 200 bytes,
/// which is not `Smalltalk` and not `Transcript`.
pub fn is_good_class_name(name: &[u8]) -> bool
    ensures { result ≡ is_good_class_name name.now }
{
    may_be_declared(name) && begins_upper(name)
}

/// Whether an instance variable or a class-instance variable may be given the name: an identifier that begins lower case,
/// of at most 200 bytes, which is no pseudo-variable.
pub fn is_good_variable_name(name: &[u8]) -> bool
    ensures { result ≡ is_good_variable_name name.now }
{
    may_be_declared(name) && !begins_upper(name)
}

/// Whether methods may be given the selector: one that is spelled as a selector is, of at most 200 bytes.
pub fn is_good_selector(selector: &[u8]) -> bool
    ensures { result ≡ is_good_selector selector.now }
{
    selector.len() <= LONGEST && is_selector(selector)
}
