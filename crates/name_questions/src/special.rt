// Names with a meaning of their own, and the arguments of selectors.
ghost use Rattle.std.specs.Prelude.{◌≡◌, codes};
ghost use Rattle.rb_base.specs.Names.{text_eq};
ghost use Rattle.rename_model.specs.CommandWords.{is_reflective_name, has_own_meaning, arity};

use spelled_words::{count_keywords, has_colon, is_identifier};
use st_kernel::{is_control_selector, is_reflective, is_reserved};

/// Whether both texts are the same.
pub(crate) fn same_text(a: &[u8], b: &[u8]) -> bool
    ensures { result ≡ text_eq a.now b.now }
{
    a == b
}

/// Whether a name stands for the program itself or for what runs it: `thisContext` or `Smalltalk`.
pub fn is_reflective_name(name: &[u8]) -> bool
    ensures { result ≡ is_reflective_name name.now }
{
    same_text(b"thisContext", name) || same_text(b"Smalltalk", name)
}

/// Whether the selector is the one that is sent where no method is found, `doesNotUnderstand:`.
pub fn is_not_understood(selector: &[u8]) -> bool
    ensures { result ≡ text_eq (codes "doesNotUnderstand:") selector.now }
{
    same_text(b"doesNotUnderstand:", selector)
}

/// Whether the language, or what runs a program, has a meaning of its own for a selector.
pub fn has_own_meaning(selector: &[u8]) -> bool
    ensures { result ≡ has_own_meaning selector.now }
{
    is_control_selector(selector)
        || is_reserved(selector)
        || is_reflective(selector)
        || is_not_understood(selector)
}

/// How many arguments a selector takes: one for each keyword, one for an operator, and none for a name.
pub fn arity(selector: &[u8]) -> usize
    ensures { result ≡ arity selector.now }
{
    if is_identifier(selector) {
        0
    } else if has_colon(selector) {
        count_keywords(selector)
    } else {
        1
    }
}
