// Messages by which do-its are replaced.
ghost use Rattle.std.specs.Prelude.{◌≡◌, ℕ, List, option_map};
ghost use Rattle.rb_base.specs.Names.{name_at};
ghost use Rattle.tree_model.specs.Tree.{map_trees, trees_of, map_sequence};
ghost use Rattle.st_tree.specs.View.{sequence_of};
ghost use Rattle.file_model.specs.Forms as forms;
ghost use Rattle.chunk_forms.specs.Told.{sent_text, replacement_text};

use crate::arguments::{numeral_first, one_argument};
use crate::sent::{Argument, Sent, is_to_system, sent_in, text_of};
use crate::words::same_text;
use rb_base::Names;
use st_literals::numeral as integer_in;
use st_tree::{Node, Sequence};

/// A do-it gets another source.
#[derive(Clone, Copy)]
pub struct Replacement<'a> {
    /// The numeral that spells the number of the do-it, counted from 1.
    pub numeral: &'a [u8],
    /// The source that the do-it gets.
    pub source: &'a [u8],
}

/// The replacement that arguments state: an integer and a string.
fn stated_replacement(arguments: &[Node]) -> Option<Replacement<'_>>
    ensures { (f : ℕ → List ℕ) → option_map replacement_text result ≡ forms.stated_replacement (forms.arguments_of (map_trees f (trees_of arguments.now))) }
{
    let first = numeral_first(arguments)?;
    match one_argument(first.others) {
        Argument::String(source) => match integer_in(first.text) {
            None => None,
            Some(_) => Some(Replacement {
                numeral: first.text,
                source,
            }),
        },
        _ => None,
    }
}

/// The replacement that a message to `Smalltalk` states.
fn replacement_sent<'a>(sent: &Sent<'a>, names: &Names) -> Option<Replacement<'a>>
    ensures { option_map replacement_text result ≡ forms.replacement_sent (sent_text names.now sent.now) }
{
    if is_to_system(sent, names) && same_text(text_of(names, sent.selector), b"replaceDoIt:with:") {
        stated_replacement(sent.arguments)
    } else {
        None
    }
}

/// The replacement of a do-it that a chunk states whose source spells this tree, if it states one. It takes no memory, and
/// its texts are those of the tree's literals.
pub fn replacement_in<'a>(body: &'a Sequence, names: &Names) -> Option<Replacement<'a>>
    ensures { option_map replacement_text result ≡ forms.replacement_in (map_sequence (name_at names.now) (sequence_of body.now)) }
{
    match sent_in(body, names) {
        None => None,
        Some(sent) => replacement_sent(&sent, names),
    }
}
