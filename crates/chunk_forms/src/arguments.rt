// Arguments one after the other.
ghost use Rattle.std.specs.Prelude.{◌≡◌, ℕ, List, option_map};
ghost use Rattle.tree_model.specs.Tree.{map_trees, trees_of};
ghost use Rattle.file_model.specs.Forms as forms;
ghost use Rattle.chunk_forms.specs.Told.{first_text, symbol_first, string_first, numeral_first, one_place, HasOneArgument};

use crate::numerals::place_in;
use crate::sent::{Argument, argument_of};
use st_tree::Node;

/// The text of an argument, and the arguments behind it.
#[derive(Clone, Copy)]
pub struct FirstText<'a> {
    pub text: &'a [u8],
    pub others: &'a [Node],
}

/// The symbol with which the arguments begin, if they begin with one. Takes no memory.
pub fn symbol_first(arguments: &[Node]) -> Option<FirstText<'_>>
    ensures { (f : ℕ → List ℕ) → option_map (first_text f) result ≡ symbol_first (forms.arguments_of (map_trees f (trees_of arguments.now))) }
{
    match arguments.split_first() {
        None => None,
        Some((first, others)) => match argument_of(first) {
            Argument::Symbol(text) => Some(FirstText { text, others }),
            _ => None,
        },
    }
}

/// The string with which the arguments begin, if they begin with one. Takes no memory.
pub fn string_first(arguments: &[Node]) -> Option<FirstText<'_>>
    ensures { (f : ℕ → List ℕ) → option_map (first_text f) result ≡ string_first (forms.arguments_of (map_trees f (trees_of arguments.now))) }
{
    match arguments.split_first() {
        None => None,
        Some((first, others)) => match argument_of(first) {
            Argument::String(text) => Some(FirstText { text, others }),
            _ => None,
        },
    }
}

/// The numeral with which the arguments begin.
pub(crate) fn numeral_first(arguments: &[Node]) -> Option<FirstText<'_>>
    ensures { (f : ℕ → List ℕ) → option_map (first_text f) result ≡ numeral_first (forms.arguments_of (map_trees f (trees_of arguments.now))) }
{
    match arguments.split_first() {
        None => None,
        Some((first, others)) => match argument_of(first) {
            Argument::Numeral(text) => Some(FirstText { text, others }),
            _ => None,
        },
    }
}

/// The argument of a message that has one, and `Other` if it has none or more. Takes no memory.
pub fn one_argument(arguments: &[Node]) -> Argument<'_>
    ensures { HasOneArgument arguments.now result }
{
    match arguments.split_first() {
        None => Argument::Other,
        Some((first, others)) => {
            if others.is_empty() {
                argument_of(first)
            } else {
                Argument::Other
            }
        }
    }
}

/// The place that the one argument states.
pub(crate) fn one_place(arguments: &[Node]) -> Option<usize>
    ensures { (f : ℕ → List ℕ) → result ≡ one_place (forms.arguments_of (map_trees f (trees_of arguments.now))) }
{
    match one_argument(arguments) {
        Argument::Numeral(numeral) => place_in(numeral),
        _ => None,
    }
}
